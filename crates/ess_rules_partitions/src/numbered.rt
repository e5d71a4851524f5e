//! Views of partitions that are kept by the number of each member's part.
ghost use Rattle.std.specs.Prelude.{◌≡◌, option_map};
ghost use Rattle.ess_core_nodes.specs.NodeViews.{pure_node, pure_dom, pure_seen};
ghost use Rattle.ess_rules_partitions.specs.NumberedViews.{numbered, members_of};
ghost use Rattle.ess_rules_partitions.specs.CodeNumbered.{pure_numbered};

use ess_core::ReprKind;
use ess_core_nodes::{Node, NodeDom, Seen};
use ess_rows::Text;
use ess_rules_kinds::{leaf_kind, pair_parts};

/// A view of such a partition by its parts.
#[derive(Clone, Copy)]
pub struct Numbered<'a> {
    /// The domain of its members.
    pub members: &'a NodeDom,
    /// The table of how many parts there are.
    pub parts: &'a Text,
    /// The table of the number of each member's part.
    pub numbers: &'a Text,
    /// The index list.
    pub at: &'a [Node],
}

/// Its parts. Nothing for another tree.
#[tactic(auto, using(crate::proofs::NumberedForms::numbered_by_pair))]
pub(crate) fn numbered_view(node: &Node) -> Option<Numbered<'_>>
    ensures { option_map pure_numbered result ≡ numbered (pure_node node.now) }
{
    match pair_parts(node) {
        None => None,
        Some(parts) => match parts.kind {
            ReprKind::PartitionOccurrence => match parts.dom {
                NodeDom::Partition(_, _, members) => Some(Numbered {
                    members: members.get(),
                    parts: parts.first,
                    numbers: parts.second,
                    at: parts.at,
                }),
                _ => None,
            },
            _ => None,
        },
    }
}

/// The domain of its members, over any tables. Nothing for another tree.
pub(crate) fn members_of(node: &Node) -> Option<&NodeDom>
    ensures { option_map (λ d. pure_dom d.now) result ≡ members_of (pure_node node.now) }
{
    match node {
        Node::Seen(seen) => members_in(seen.get()),
        _ => None,
    }
}

/// The same of a view.
#[tactic(auto, using(ess_core_nodes::proofs::NodeEquations::pure_seen_is, crate::proofs::NumberedForms::members_by_kind))]
fn members_in(seen: &Seen) -> Option<&NodeDom>
    ensures { option_map (λ d. pure_dom d.now) result ≡ members_of (pure_seen seen.now) }
{
    match leaf_kind(&seen.repr) {
        Some(ReprKind::PartitionOccurrence) => match seen.dom.get() {
            NodeDom::Partition(_, _, members) => Some(members.get()),
            _ => None,
        },
        _ => None,
    }
}
