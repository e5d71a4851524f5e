//! Applications, which lookups ask for.
ghost use Rattle.std.specs.Prelude.{◌≡◌, option_map};
ghost use Rattle.ess_core_nodes.specs.NodeViews.{pure_node};
ghost use Rattle.ess_rules_pairs.specs.Applications.{applied};

use ess_core::Fun;
use ess_core_nodes::{Node, Op};
use ess_rules_forms::pair_in;

/// The function and the argument of an application or of `image`.
#[tactic(auto, using(ess_core_nodes::proofs::NodeEquations::pure_seen_is, crate::proofs::AppliedForms::application_of_both, crate::proofs::AppliedForms::image_of_both))]
pub(crate) fn applied(node: &Node) -> Option<(&Node, &Node)>
    ensures { option_map (λ p. (pure_node p.0.now, pure_node p.1.now)) result ≡ applied (pure_node node.now) }
{
    match node {
        Node::Op(_, Op::Apply, operands) => pair_in(operands.as_slice()),
        Node::Op(_, Op::Word(Fun::Image), operands) => pair_in(operands.as_slice()),
        _ => None,
    }
}
