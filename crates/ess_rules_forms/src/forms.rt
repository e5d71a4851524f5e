//! The forms that several rules share: the parts of a node that has the form, and nothing of another.
ghost use Rattle.std.specs.Prelude.{◌≡◌, option_map};
ghost use Rattle.ess_core_nodes.specs.NodeViews.{pure_node, pure_nodes, pure_op};
ghost use Rattle.ess_rules_forms.specs.Forms.{only_operand, both_operands, truth_pair, plain_pair, plain_word, is_nothing};

use ess_core::{Fun, Op2};
use ess_core_nodes::{Node, Op};

/// The only operand.
pub fn only_in(operands: &[Node]) -> Option<&Node>
    ensures { option_map (λ a. pure_node a.now) result ≡ only_operand (pure_nodes operands.now) }
{
    match operands.split_first() {
        None => None,
        Some((first, rest)) => match rest.split_first() {
            None => Some(first),
            Some(_) => None,
        },
    }
}

/// Two operands, where they are the only ones.
pub fn pair_in(operands: &[Node]) -> Option<(&Node, &Node)>
    ensures { option_map (λ p. (pure_node p.0.now, pure_node p.1.now)) result ≡ both_operands (pure_nodes operands.now) }
{
    match operands.split_first() {
        None => None,
        Some((first, rest)) => match rest.split_first() {
            None => None,
            Some((second, more)) => match more.split_first() {
                None => Some((first, second)),
                Some(_) => None,
            },
        },
    }
}

/// A Boolean operator between two operands.
#[tactic(auto, using(ess_core_nodes::proofs::NodeEquations::pure_seen_is, crate::proofs::FormLemmas::truth_pair_of))]
pub fn truth_pair(node: &Node) -> Option<(Op2, (&Node, &Node))>
    ensures { option_map (λ p. (p.0, (pure_node p.1.0.now, pure_node p.1.1.now))) result ≡ truth_pair (pure_node node.now) }
{
    match node {
        Node::Op(true, Op::Binary(op), operands) => match pair_in(operands.as_slice()) {
            Some(pair) => Some((*op, pair)),
            None => None,
        },
        _ => None,
    }
}

/// An operator between two operands that isn't Boolean.
#[tactic(auto, using(ess_core_nodes::proofs::NodeEquations::pure_seen_is, crate::proofs::FormLemmas::plain_pair_of))]
pub fn plain_pair(node: &Node) -> Option<(Op2, (&Node, &Node))>
    ensures { option_map (λ p. (p.0, (pure_node p.1.0.now, pure_node p.1.1.now))) result ≡ plain_pair (pure_node node.now) }
{
    match node {
        Node::Op(false, Op::Binary(op), operands) => match pair_in(operands.as_slice()) {
            Some(pair) => Some((*op, pair)),
            None => None,
        },
        _ => None,
    }
}

/// A function word on one operand that isn't Boolean.
#[tactic(auto, using(ess_core_nodes::proofs::NodeEquations::pure_seen_is, crate::proofs::FormLemmas::plain_word_of))]
pub fn plain_word(node: &Node) -> Option<(Fun, &Node)>
    ensures { option_map (λ p. (p.0, pure_node p.1.now)) result ≡ plain_word (pure_node node.now) }
{
    match node {
        Node::Op(false, Op::Word(fun), operands) => match only_in(operands.as_slice()) {
            Some(operand) => Some((*fun, operand)),
            None => None,
        },
        _ => None,
    }
}

/// Whether it is the list of no items.
#[tactic(auto, using(ess_core_nodes::proofs::NodeEquations::pure_seen_is))]
pub fn is_nothing(node: &Node) -> bool
    ensures { result ≡ is_nothing (pure_node node.now) }
{
    match node {
        Node::Op(false, Op::Matrix, items) => match items.as_slice().split_first() {
            None => true,
            Some(_) => false,
        },
        _ => false,
    }
}
