//! Simple nodes: those that simplifying leaves as they are.
ghost use Rattle.std.specs.Prelude.{◌≡◌, not, is_some};
ghost use Rattle.ess_semantics.specs.Trees.{node_ex};
ghost use Rattle.ess_semantics.specs.Operators.{connective};
ghost use Rattle.ess_semantics.specs.Simplified.{is_truth_value, is_negation, each_operand, is_simple_node};
ghost use Rattle.ess_core_nodes.specs.NodeViews.{pure_node, pure_nodes, pure_op};
ghost use Rattle.ess_node_forms.specs.RangedDomains.{is_denial};

use ess_core::{Op1, Op2};
use ess_core_nodes::{Node, Op};

/// Whether no `!` stands directly under a `!`, and no `true` or `false` under a connective, at the root.
#[tactic(auto, using(ess_core_nodes::proofs::NodeEquations::pure_seen_is, crate::proofs::SimpleNodes::simple_by))]
pub fn is_simple_node(node: &Node) -> bool
    ensures { result ≡ is_simple_node (pure_node node.now) }
{
    match node {
        Node::Op(_, op, operands) => {
            (!is_connective(op) || are_no_truths(operands.as_slice()))
                && (!is_not(op) || are_no_negations(operands.as_slice()))
        }
        _ => true,
    }
}

/// Whether the operator is a connective.
fn is_connective(op: &Op) -> bool
    ensures { result ≡ is_some (connective (pure_op op.now)) }
{
    match op {
        Op::Unary(Op1::Not) => true,
        Op::Binary(Op2::And) => true,
        Op::Binary(Op2::Or) => true,
        Op::Binary(Op2::Implies) => true,
        Op::Binary(Op2::Iff) => true,
        _ => false,
    }
}

/// Whether the operator is `!`.
fn is_not(op: &Op) -> bool
    ensures { result ≡ is_denial (pure_op op.now) }
{
    match op {
        Op::Unary(Op1::Not) => true,
        _ => false,
    }
}

/// Whether none of the nodes is `true` or `false`.
#[tactic(auto, using(crate::proofs::SimpleNodes::truths_more, crate::proofs::SimpleNodes::truths_stop, crate::proofs::SimpleNodes::truths_end))]
fn are_no_truths(nodes: &[Node]) -> bool
    ensures { result ≡ each_operand (λ e. not (is_truth_value e)) (pure_nodes nodes.now) }
{
    for node in nodes {
        if is_truth(node) {
            return false;
        }
    }
    true
}

/// Whether none of the nodes is a `!`.
#[tactic(auto, using(crate::proofs::SimpleNodes::negations_more, crate::proofs::SimpleNodes::negations_stop, crate::proofs::SimpleNodes::negations_end))]
fn are_no_negations(nodes: &[Node]) -> bool
    ensures { result ≡ each_operand (λ e. not (is_negation e)) (pure_nodes nodes.now) }
{
    for node in nodes {
        if is_negation(node) {
            return false;
        }
    }
    true
}

/// Whether the node is `true` or `false`.
#[tactic(auto, using(ess_core_nodes::proofs::NodeEquations::pure_seen_is))]
fn is_truth(node: &Node) -> bool
    ensures { result ≡ is_truth_value (pure_node node.now) }
{
    match node {
        Node::Truth(_) => true,
        _ => false,
    }
}

/// Whether the node is a `!`.
#[tactic(auto, using(ess_core_nodes::proofs::NodeEquations::pure_seen_is, crate::proofs::SimpleNodes::negation_by))]
fn is_negation(node: &Node) -> bool
    ensures { result ≡ is_negation (pure_node node.now) }
{
    match node {
        Node::Op(_, op, _) => is_not(op),
        _ => false,
    }
}
