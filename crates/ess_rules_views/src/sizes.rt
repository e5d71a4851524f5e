//! The sizes of views of sets in slots: the marker, or the number of slots where all are in use.
ghost use Rattle.std.specs.Prelude.{◌≡◌, IfOk, option_map};
ghost use Rattle.ess_semantics.specs.Lists.{and_then};
ghost use Rattle.ess_core_nodes.specs.NodeViews.{pure_node};
ghost use Rattle.ess_rules_laws.specs.SetSizes.{size_by_marker, size_by_slots};
ghost use Rattle.ess_rules_views.specs.ViewForms.{a_size, in_slots};
ghost use Rattle.ess_rules_views.specs.ViewRules.{marker_of};
ghost use Rattle.ess_rules_views.specs.CodeViews.{pure_slots};

use crate::keys::cell;
use crate::parts::{SlotParts, a_size, in_slots};
use ess_core::ReprKind;
use ess_core_nodes::{Node, copy_nodes};
use ess_rows::{Boxed, NoMemory};
use std::alloc::Global;

/// The parts of the view of a set whose size a term is.
fn sized_slots(node: &Node) -> Option<SlotParts<'_>>
    ensures { option_map pure_slots result ≡ and_then (a_size (pure_node node.now)) in_slots }
{
    match a_size(node) {
        Some(container) => in_slots(container),
        None => None,
    }
}

/// `|v|` of a set with a marker becomes the marker. Nothing for another root; `NoMemory` where there is no room for it.
#[tactic(auto, using(crate::proofs::ViewParts::marker_by_slots))]
pub fn size_by_marker(alloc: Global, node: &Node) -> Result<Option<Boxed<Node>>, NoMemory>
    ensures { IfOk result (λ o. option_map pure_node o ≡ size_by_marker (pure_node node.now)) }
{
    match sized_slots(node) {
        Some(parts) => marker_of(alloc, &parts),
        None => Ok(None),
    }
}

/// The marker of a view of a set, if it has one.
fn marker_of(alloc: Global, parts: &SlotParts<'_>) -> Result<Option<Boxed<Node>>, NoMemory>
    ensures { IfOk result (λ o. option_map pure_node o ≡ marker_of (pure_slots parts.now)) }
{
    match parts.kind {
        ReprKind::ExplicitVarSizeWithMarker => match parts.cells.split_first() {
            Some((marker, _)) => {
                let at = copy_nodes(alloc, parts.at)?;
                Ok(Some(cell(alloc, false, marker, at)?))
            }
            None => Ok(None),
        },
        _ => Ok(None),
    }
}

/// `|v|` of a set whose slots are all in use becomes the number of slots, which is given. Nothing for another root; `NoMemory` where
/// there is no room for it.
#[tactic(auto, using(crate::proofs::ViewParts::size_by_all_slots))]
pub fn size_by_slots(
    alloc: Global,
    slots: &Node,
    node: &Node,
) -> Result<Option<Boxed<Node>>, NoMemory>
    ensures { IfOk result (λ o. option_map pure_node o ≡ size_by_slots (pure_node slots.now) (pure_node node.now)) }
{
    match sized_slots(node) {
        Some(parts) => match parts.kind {
            ReprKind::Explicit => Ok(Some(slots.copy(alloc)?)),
            _ => Ok(None),
        },
        None => Ok(None),
    }
}
