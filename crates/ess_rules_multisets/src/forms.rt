//! The forms of trees that the rules ask for.
ghost use Rattle.std.specs.Prelude.{◌≡◌, option_map};
ghost use Rattle.ess_core_nodes.specs.NodeViews.{pure_node};
ghost use Rattle.ess_rules_multisets.specs.Asked.{a_size, a_frequency};

use ess_core::{Fun, Op1};
use ess_core_nodes::{Node, Op};
use ess_rules_forms::{only_in, pair_in};

/// The container whose size a term is.
#[tactic(auto, using(ess_core_nodes::proofs::NodeEquations::pure_seen_is, crate::proofs::AskedForms::size_of_only))]
pub(crate) fn a_size(node: &Node) -> Option<&Node>
    ensures { option_map (λ a. pure_node a.now) result ≡ a_size (pure_node node.now) }
{
    match node {
        Node::Op(false, Op::Unary(Op1::Bar), operands) => only_in(operands.as_slice()),
        _ => None,
    }
}

/// The multiset and the member of which a term is the frequency.
#[tactic(auto, using(ess_core_nodes::proofs::NodeEquations::pure_seen_is, crate::proofs::AskedForms::frequency_of_both))]
pub(crate) fn a_frequency(node: &Node) -> Option<(&Node, &Node)>
    ensures { option_map (λ p. (pure_node p.0.now, pure_node p.1.now)) result ≡ a_frequency (pure_node node.now) }
{
    match node {
        Node::Op(false, Op::Word(Fun::Freq), operands) => pair_in(operands.as_slice()),
        _ => None,
    }
}
