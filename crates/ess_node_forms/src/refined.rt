//! Refined trees: those that a model can have.
ghost use Rattle.std.specs.Prelude.{◌≡◌, [], ◌∷◌, false, map};
ghost use Rattle.ess_semantics.specs.Trees.{node_ex, matrix_literal, comp_ex, over};
ghost use Rattle.ess_semantics.specs.Refined.{is_refined, are_refined, is_refined_list, are_refined_lists, are_refined_gens};
ghost use Rattle.ess_semantics.specs.Kinds.{is_bounded};
ghost use Rattle.ess_core.specs.TreeViews.{gens_of};
ghost use Rattle.ess_core_nodes.specs.NodeViews.{pure_node, pure_nodes, pure_gen, pure_gens, pure_dom, pure_op, pure_ends};
ghost use Rattle.ess_node_forms.specs.RangedDomains.{is_ranged, is_list};

use crate::operators::{is_list_op, is_scalar_op, is_truth_op};
use ess_core::Pat;
use ess_core_nodes::{Ends, Gen, Node, NodeDom, Op};

/// Whether neither a view nor an abstract operator is left in the tree.
#[cycle(is_refined)]
#[tactic(auto, using(ess_core_nodes::proofs::NodeEquations::pure_seen_is))]
pub fn is_refined(node: &Node) -> bool
    ensures { result ≡ is_refined (pure_node node.now) }
{
    match node {
        Node::Number(_) => true,
        Node::Truth(_) => true,
        Node::Name(_) => true,
        Node::Cell(_, _, at) => are_refined(at.as_slice()),
        Node::Op(mark, op, operands) => is_refined_op(*mark, op, operands.as_slice()),
        Node::MatrixOn(_, _) => false,
        Node::Comp(_, _) => false,
        Node::Seen(_) => false,
    }
}

/// The same of an operator's node.
#[cycle(is_refined)]
#[tactic(auto, using(crate::proofs::RefinedNodes::mark_wrong, crate::proofs::RefinedNodes::scalars_refined, crate::proofs::RefinedNodes::lists_refined))]
fn is_refined_op(mark: bool, op: &Op, operands: &[Node]) -> bool
    ensures { result ≡ is_refined (node_ex mark (pure_op op.now) (pure_nodes operands.now)) }
{
    if mark != is_truth_op(op) {
        return false;
    }
    if is_scalar_op(op) {
        return are_refined(operands);
    }
    is_list_op(op) && are_refined_lists(operands)
}

/// The same of operands.
#[cycle(is_refined)]
#[tactic(auto, using(crate::proofs::RefinedNodes::refined_more, crate::proofs::RefinedNodes::refined_not, crate::proofs::RefinedNodes::refined_end))]
fn are_refined(nodes: &[Node]) -> bool
    ensures { result ≡ are_refined (pure_nodes nodes.now) }
{
    for node in nodes {
        if !is_refined(node) {
            return false;
        }
    }
    true
}

/// The same of operands that are lists.
#[cycle(is_refined)]
#[tactic(auto, using(crate::proofs::RefinedNodes::lists_more, crate::proofs::RefinedNodes::lists_not, crate::proofs::RefinedNodes::lists_end))]
fn are_refined_lists(nodes: &[Node]) -> bool
    ensures { result ≡ are_refined_lists (pure_nodes nodes.now) }
{
    for node in nodes {
        if !is_refined_list(node) {
            return false;
        }
    }
    true
}

/// Whether the node is a refined comprehension or list literal.
#[cycle(is_refined)]
#[tactic(auto, using(ess_core_nodes::proofs::NodeEquations::pure_seen_is, crate::proofs::RefinedNodes::list_marked, crate::proofs::RefinedNodes::list_by))]
fn is_refined_list(node: &Node) -> bool
    ensures { result ≡ is_refined_list (pure_node node.now) }
{
    match node {
        Node::Comp(body, gens) => is_refined(body.get()) && are_refined_gens(gens.as_slice()),
        Node::Op(mark, op, items) => {
            if *mark {
                return false;
            }
            is_list(op) && are_refined(items.as_slice())
        }
        _ => false,
    }
}

/// Whether the operator makes a list of its operands.
pub fn is_list(op: &Op) -> bool
    ensures { result ≡ is_list (pure_op op.now) }
{
    match op {
        Op::Matrix => true,
        _ => false,
    }
}

/// Whether generators and conditions are refined.
#[cycle(is_refined)]
#[tactic(auto, using(crate::proofs::RefinedGenerators::gens_more, crate::proofs::RefinedGenerators::gens_not, crate::proofs::RefinedGenerators::gens_end))]
pub fn are_refined_gens(gens: &[Gen]) -> bool
    ensures { result ≡ are_refined_gens (pure_gens gens.now) }
{
    for item in gens {
        if !is_refined_gen(item) {
            return false;
        }
    }
    true
}

/// The same of one.
#[cycle(is_refined)]
#[tactic(auto, using(crate::proofs::RefinedGenerators::name_over, crate::proofs::RefinedGenerators::tuple_over, crate::proofs::RefinedGenerators::condition_alone, ess_core_nodes::proofs::NodeEquations::pure_gen_over, ess_core_nodes::proofs::NodeEquations::pure_gen_from, ess_core_nodes::proofs::NodeEquations::pure_gen_if))]
fn is_refined_gen(item: &Gen) -> bool
    ensures { result ≡ are_refined_gens (gens_of (pure_gen item.now ∷ [])) }
{
    match item {
        Gen::Over(Pat::Name(_), dom) => is_ranged(dom.get()),
        Gen::Over(Pat::Tuple(_), _) => false,
        Gen::From(_, _) => false,
        Gen::If(condition) => is_refined(condition.get()),
    }
}

/// Whether a domain is one of generators of models: bool, a named type, or bounded ranges with refined bounds.
#[cycle(is_refined)]
fn is_ranged(dom: &NodeDom) -> bool
    ensures { result ≡ is_ranged (pure_dom dom.now) }
{
    match dom {
        NodeDom::Bool => true,
        NodeDom::Name(_) => true,
        NodeDom::Int(ends, bounds) => is_bounded(ends.as_slice()) && are_refined(bounds.as_slice()),
        _ => false,
    }
}

/// Whether there are ranges, and each has its bounds.
#[tactic(auto, using(crate::proofs::RefinedGenerators::bounded_none, crate::proofs::RefinedGenerators::bounded_some, crate::proofs::RefinedGenerators::closed_more, crate::proofs::RefinedGenerators::closed_not, crate::proofs::RefinedGenerators::closed_end))]
fn is_bounded(ends: &[Ends]) -> bool
    ensures { result ≡ is_bounded (map pure_ends ends.now) }
{
    if ends.is_empty() {
        return false;
    }
    for range in ends {
        if *range == Ends::Low {
            return false;
        }
        if *range == Ends::High {
            return false;
        }
    }
    true
}
