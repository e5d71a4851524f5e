//! Listings of sets in slots: a number runs over the slots in use, and the item is the view in the slot.
ghost use Rattle.std.specs.Prelude.{◌≡◌, option_map, IfOk};
ghost use Rattle.ess_core_nodes.specs.NodeViews.{pure_node};
ghost use Rattle.ess_rules_laws.specs.SlotListings.{explicit_listing, marker_listing, flags_listing};
ghost use Rattle.ess_rules_kinds.specs.ViewParts.{nested_view};
ghost use Rattle.ess_rules_forms.specs.PureAlternatives.{pure_alternative};
ghost use Rattle.ess_rules_kinds.specs.CodeParts.{pure_nested};

use crate::parts::{Nested, nested_parts};
use crate::pieces::{gens_over, gens_where, slot_cell, slot_view, slots_dom, up_to};
use ess_core::ReprKind;
use ess_core_nodes::{Node, NodeDom};
use ess_rows::{NoMemory, Text};
use ess_rules_forms::Alternative;
use std::alloc::Global;

// ---- slots all in use

/// Of a set in slots all in use: the name over the slots, of which the tree says how many there are, and the view in the slot. Nothing
/// for another tree; `NoMemory` where there is no room for it.
#[tactic(auto, using(crate::proofs::NestedListings::explicit_by_parts))]
pub fn explicit_listing(
    alloc: Global,
    one: &Text,
    slots: &Node,
    view: &Node,
) -> Result<Option<Alternative>, NoMemory>
    ensures { IfOk result (λ o. option_map pure_alternative o ≡ explicit_listing one.now (pure_node slots.now) (pure_node view.now)) }
{
    match nested_parts(view) {
        Some(parts) => explicit_from(alloc, one, slots, &parts),
        None => Ok(None),
    }
}

/// The same of the parts of a view.
fn explicit_from(
    alloc: Global,
    one: &Text,
    slots: &Node,
    parts: &Nested<'_>,
) -> Result<Option<Alternative>, NoMemory>
    ensures { IfOk result (λ o. option_map pure_alternative o
        ≡ explicit_listing one.now (pure_node slots.now) (nested_view (pure_nested parts.now))) }
{
    match parts.kind {
        ReprKind::Explicit => match parts.dom {
            NodeDom::Set(_, _, member) => {
                let gens = gens_over(alloc, one, slots_dom(alloc, slots)?)?;
                let item = slot_view(alloc, parts.child, member.get(), parts.cells, parts.at, one)?;
                Ok(Some(Alternative { gens, item }))
            }
            _ => Ok(None),
        },
        _ => Ok(None),
    }
}

// ---- slots up to a marker

/// Of a set in slots up to a marker: the name over the slots up to it, and the view in the slot. Nothing for another tree; `NoMemory`
/// where there is no room for it.
#[tactic(auto, using(crate::proofs::NestedListings::marker_by_parts))]
pub fn marker_listing(
    alloc: Global,
    one: &Text,
    slots: &Node,
    view: &Node,
) -> Result<Option<Alternative>, NoMemory>
    ensures { IfOk result (λ o. option_map pure_alternative o ≡ marker_listing one.now (pure_node slots.now) (pure_node view.now)) }
{
    match nested_parts(view) {
        Some(parts) => marker_from(alloc, one, slots, &parts),
        None => Ok(None),
    }
}

/// The same of the parts of a view.
fn marker_from(
    alloc: Global,
    one: &Text,
    slots: &Node,
    parts: &Nested<'_>,
) -> Result<Option<Alternative>, NoMemory>
    ensures { IfOk result (λ o. option_map pure_alternative o
        ≡ marker_listing one.now (pure_node slots.now) (nested_view (pure_nested parts.now))) }
{
    match parts.kind {
        ReprKind::ExplicitVarSizeWithMarker => match parts.dom {
            NodeDom::Set(_, _, member) => match parts.cells.split_first() {
                Some((marker, cells)) => {
                    let test = up_to(alloc, one, marker, parts.at)?;
                    let gens = gens_where(alloc, one, slots_dom(alloc, slots)?, test)?;
                    let item = slot_view(alloc, parts.child, member.get(), cells, parts.at, one)?;
                    Ok(Some(Alternative { gens, item }))
                }
                None => Ok(None),
            },
            _ => Ok(None),
        },
        _ => Ok(None),
    }
}

// ---- slots with flags

/// Of a set in slots with flags: the name over the slots whose flag is true, and the view in the slot. Nothing for another tree;
/// `NoMemory` where there is no room for it.
#[tactic(auto, using(crate::proofs::NestedListings::flags_by_parts))]
pub fn flags_listing(
    alloc: Global,
    one: &Text,
    slots: &Node,
    view: &Node,
) -> Result<Option<Alternative>, NoMemory>
    ensures { IfOk result (λ o. option_map pure_alternative o ≡ flags_listing one.now (pure_node slots.now) (pure_node view.now)) }
{
    match nested_parts(view) {
        Some(parts) => flags_from(alloc, one, slots, &parts),
        None => Ok(None),
    }
}

/// The same of the parts of a view.
fn flags_from(
    alloc: Global,
    one: &Text,
    slots: &Node,
    parts: &Nested<'_>,
) -> Result<Option<Alternative>, NoMemory>
    ensures { IfOk result (λ o. option_map pure_alternative o
        ≡ flags_listing one.now (pure_node slots.now) (nested_view (pure_nested parts.now))) }
{
    match parts.kind {
        ReprKind::ExplicitVarSizeWithFlags => match parts.dom {
            NodeDom::Set(_, _, member) => match parts.cells.split_first() {
                Some((flags, cells)) => {
                    let test = slot_cell(alloc, true, flags, parts.at, one)?;
                    let gens = gens_where(alloc, one, slots_dom(alloc, slots)?, test)?;
                    let item = slot_view(alloc, parts.child, member.get(), cells, parts.at, one)?;
                    Ok(Some(Alternative { gens, item }))
                }
                None => Ok(None),
            },
            _ => Ok(None),
        },
        _ => Ok(None),
    }
}
