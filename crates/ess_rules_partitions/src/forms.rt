//! The forms of trees that the rules ask for.
ghost use Rattle.std.specs.Prelude.{◌≡◌, option_map};
ghost use Rattle.ess_core_nodes.specs.NodeViews.{pure_node, pure_nodes};
ghost use Rattle.ess_rules_partitions.specs.Asked.{a_party, a_size, the_parts, the_participants, a_together, set_items};

use ess_core::{Fun, Op1};
use ess_core_nodes::{Node, Op};
use ess_rules_forms::{only_in, pair_in};

/// The member and the partition of which a term is the party.
#[tactic(auto, using(ess_core_nodes::proofs::NodeEquations::pure_seen_is, crate::proofs::AskedForms::party_of_both))]
pub(crate) fn a_party(node: &Node) -> Option<(&Node, &Node)>
    ensures { option_map (λ p. (pure_node p.0.now, pure_node p.1.now)) result ≡ a_party (pure_node node.now) }
{
    match node {
        Node::Op(false, Op::Word(Fun::Party), operands) => pair_in(operands.as_slice()),
        _ => None,
    }
}

/// The container whose size a term is.
#[tactic(auto, using(ess_core_nodes::proofs::NodeEquations::pure_seen_is, crate::proofs::AskedForms::size_of_only))]
pub(crate) fn a_size(node: &Node) -> Option<&Node>
    ensures { option_map (λ a. pure_node a.now) result ≡ a_size (pure_node node.now) }
{
    match node {
        Node::Op(false, Op::Unary(Op1::Bar), operands) => only_in(operands.as_slice()),
        _ => None,
    }
}

/// The partition whose parts a term is.
#[tactic(auto, using(ess_core_nodes::proofs::NodeEquations::pure_seen_is, crate::proofs::AskedForms::parts_of_only))]
pub(crate) fn the_parts(node: &Node) -> Option<&Node>
    ensures { option_map (λ a. pure_node a.now) result ≡ the_parts (pure_node node.now) }
{
    match node {
        Node::Op(false, Op::Word(Fun::Parts), operands) => only_in(operands.as_slice()),
        _ => None,
    }
}

/// The partition whose members a term is.
#[tactic(auto, using(ess_core_nodes::proofs::NodeEquations::pure_seen_is, crate::proofs::AskedForms::participants_of_only))]
pub(crate) fn the_participants(node: &Node) -> Option<&Node>
    ensures { option_map (λ a. pure_node a.now) result ≡ the_participants (pure_node node.now) }
{
    match node {
        Node::Op(false, Op::Word(Fun::Participants), operands) => only_in(operands.as_slice()),
        _ => None,
    }
}

/// The set and the partition, where a term says that the members of the set lie in one part.
#[tactic(auto, using(ess_core_nodes::proofs::NodeEquations::pure_seen_is, crate::proofs::AskedForms::together_of_both))]
pub(crate) fn a_together(node: &Node) -> Option<(&Node, &Node)>
    ensures { option_map (λ p. (pure_node p.0.now, pure_node p.1.now)) result ≡ a_together (pure_node node.now) }
{
    match node {
        Node::Op(true, Op::Word(Fun::Together), operands) => pair_in(operands.as_slice()),
        _ => None,
    }
}

/// The items of a set that is written as a literal.
#[tactic(auto, using(ess_core_nodes::proofs::NodeEquations::pure_seen_is))]
pub(crate) fn set_items(node: &Node) -> Option<&[Node]>
    ensures { option_map (λ es. pure_nodes es.now) result ≡ set_items (pure_node node.now) }
{
    match node {
        Node::Op(false, Op::Set, items) => Some(items.as_slice()),
        _ => None,
    }
}
