//! Listings of multisets: each member as often as it is there, or once.
ghost use Rattle.std.specs.Prelude.{◌≡◌, false, option_map, IfOk};
ghost use Rattle.ess_semantics.specs.Trees.{fun1};
ghost use Rattle.ess_core_nodes.specs.NodeViews.{pure_node};
ghost use Rattle.ess_views_laws.specs.MultisetViews.{occurrence_members, repetition_members, counted_members, members_once};
ghost use Rattle.ess_rules_kinds.specs.ViewParts.{leaf_view, nested_view};
ghost use Rattle.ess_rules_forms.specs.PureAlternatives.{pure_alternative};
ghost use Rattle.ess_rules_kinds.specs.CodeParts.{pure_leaf, pure_nested};

use crate::parts::{Leaf, Nested, leaf_parts, nested_parts};
use crate::pieces::{counted, gens_counted, gens_where, is_there, slot_view, slots_dom, up_to};
use ess_core::{Fun, ReprKind};
use ess_core_nodes::{Node, NodeDom};
use ess_node_building::name;
use ess_rows::{NoMemory, Text};
use ess_rules_forms::{Alternative, plain_word};
use std::alloc::Global;

// ---- how often each member is there

/// Of a multiset kept as how often each member of the inner domain is there: the one name over the domain, the other over the numbers
/// up to that of the member; the tree says how often a member may be there. Nothing for another tree; `NoMemory` where there is no room
/// for it.
#[tactic(auto, using(crate::proofs::LeafListings::members_by_parts))]
pub fn occurrence_members(
    alloc: Global,
    one: &Text,
    other: &Text,
    most: &Node,
    view: &Node,
) -> Result<Option<Alternative>, NoMemory>
    ensures { IfOk result (λ o. option_map pure_alternative o
        ≡ occurrence_members one.now other.now (pure_node most.now) (pure_node view.now)) }
{
    match leaf_parts(view) {
        Some(parts) => members_from(alloc, one, other, most, &parts),
        None => Ok(None),
    }
}

/// The same of the parts of a view.
fn members_from(
    alloc: Global,
    one: &Text,
    other: &Text,
    most: &Node,
    parts: &Leaf<'_>,
) -> Result<Option<Alternative>, NoMemory>
    ensures { IfOk result (λ o. option_map pure_alternative o
        ≡ occurrence_members one.now other.now (pure_node most.now) (leaf_view (pure_leaf parts.now))) }
{
    match parts.kind {
        ReprKind::MSetOccurrence => match parts.dom {
            NodeDom::MSet(_, _, member) => {
                let test = counted(alloc, other, parts.table, parts.at, one)?;
                let member = member.get().copy(alloc)?;
                let numbers = slots_dom(alloc, most)?;
                let gens = gens_counted(alloc, one, member, other, numbers, test)?;
                let item = name(alloc, one)?;
                Ok(Some(Alternative { gens, item }))
            }
            _ => Ok(None),
        },
        _ => Ok(None),
    }
}

// ---- slots up to a marker

/// Of a multiset in slots up to a marker: the name over the slots up to it, and the view in the slot. Nothing for another tree;
/// `NoMemory` where there is no room for it.
#[tactic(auto, using(crate::proofs::NestedListings::repetition_by_parts))]
pub fn repetition_members(
    alloc: Global,
    one: &Text,
    slots: &Node,
    view: &Node,
) -> Result<Option<Alternative>, NoMemory>
    ensures { IfOk result (λ o. option_map pure_alternative o ≡ repetition_members one.now (pure_node slots.now) (pure_node view.now)) }
{
    match nested_parts(view) {
        Some(parts) => repetition_from(alloc, one, slots, &parts),
        None => Ok(None),
    }
}

/// The same of the parts of a view.
fn repetition_from(
    alloc: Global,
    one: &Text,
    slots: &Node,
    parts: &Nested<'_>,
) -> Result<Option<Alternative>, NoMemory>
    ensures { IfOk result (λ o. option_map pure_alternative o
        ≡ repetition_members one.now (pure_node slots.now) (nested_view (pure_nested parts.now))) }
{
    match parts.kind {
        ReprKind::MSetExplicitWithRepetition => match parts.dom {
            NodeDom::MSet(_, _, member) => match parts.cells.split_first() {
                Some((marker, cells)) => {
                    let test = up_to(alloc, one, marker, parts.at)?;
                    let gens = gens_where(alloc, one, slots_dom(alloc, slots)?, test)?;
                    let item = slot_view(alloc, parts.child, member.get(), cells, parts.at, one)?;
                    Ok(Some(Alternative { gens, item }))
                }
                None => Ok(None),
            },
            _ => Ok(None),
        },
        _ => Ok(None),
    }
}

// ---- slots with numbers

/// Of a multiset in slots with how often the member of each is there: the one name over the slots, the other over the numbers up to
/// that of the slot, and the view in the slot. Nothing for another tree; `NoMemory` where there is no room for it.
#[tactic(auto, using(crate::proofs::NestedListings::counted_by_parts))]
pub fn counted_members(
    alloc: Global,
    one: &Text,
    other: &Text,
    slots: &Node,
    most: &Node,
    view: &Node,
) -> Result<Option<Alternative>, NoMemory>
    ensures { IfOk result (λ o. option_map pure_alternative o
        ≡ counted_members one.now other.now (pure_node slots.now) (pure_node most.now) (pure_node view.now)) }
{
    match nested_parts(view) {
        Some(parts) => counted_from(alloc, one, other, slots, most, &parts),
        None => Ok(None),
    }
}

/// The same of the parts of a view.
fn counted_from(
    alloc: Global,
    one: &Text,
    other: &Text,
    slots: &Node,
    most: &Node,
    parts: &Nested<'_>,
) -> Result<Option<Alternative>, NoMemory>
    ensures { IfOk result (λ o. option_map pure_alternative o
        ≡ counted_members one.now other.now (pure_node slots.now) (pure_node most.now) (nested_view (pure_nested parts.now))) }
{
    match parts.kind {
        ReprKind::MSetExplicitWithFlags => match parts.dom {
            NodeDom::MSet(_, _, member) => match parts.cells.split_first() {
                Some((table, cells)) => {
                    let test = counted(alloc, other, table, parts.at, one)?;
                    let dom = slots_dom(alloc, slots)?;
                    let numbers = slots_dom(alloc, most)?;
                    let gens = gens_counted(alloc, one, dom, other, numbers, test)?;
                    let item = slot_view(alloc, parts.child, member.get(), cells, parts.at, one)?;
                    Ok(Some(Alternative { gens, item }))
                }
                None => Ok(None),
            },
            _ => Ok(None),
        },
        _ => Ok(None),
    }
}

// ---- each member once

/// Of `toSet(v)`, where the multiset v is kept by how often each member, or that of each slot, is there: each one whose number is above
/// 0. Nothing for another tree; `NoMemory` where there is no room for it.
#[tactic(auto, using(crate::proofs::OnceListings::once_by_word))]
pub fn members_once(
    alloc: Global,
    one: &Text,
    slots: &Node,
    node: &Node,
) -> Result<Option<Alternative>, NoMemory>
    ensures { IfOk result (λ o. option_map pure_alternative o ≡ members_once one.now (pure_node slots.now) (pure_node node.now)) }
{
    match plain_word(node) {
        Some((Fun::ToSet, view)) => once(alloc, one, slots, view),
        _ => Ok(None),
    }
}

/// The same of the multiset.
#[tactic(auto, using(crate::proofs::OnceListings::once_by_parts))]
fn once(
    alloc: Global,
    one: &Text,
    slots: &Node,
    view: &Node,
) -> Result<Option<Alternative>, NoMemory>
    ensures { IfOk result (λ o. option_map pure_alternative o
        ≡ members_once one.now (pure_node slots.now) (fun1 false Fun.ToSet (pure_node view.now))) }
{
    match leaf_parts(view) {
        Some(parts) => once_over(alloc, one, slots, &parts),
        None => match nested_parts(view) {
            Some(parts) => once_in_slots(alloc, one, slots, &parts),
            None => Ok(None),
        },
    }
}

/// The same of the parts of a view over one table.
fn once_over(
    alloc: Global,
    one: &Text,
    slots: &Node,
    parts: &Leaf<'_>,
) -> Result<Option<Alternative>, NoMemory>
    ensures { IfOk result (λ o. option_map pure_alternative o
        ≡ members_once one.now (pure_node slots.now) (fun1 false Fun.ToSet (leaf_view (pure_leaf parts.now)))) }
{
    match parts.kind {
        ReprKind::MSetOccurrence => match parts.dom {
            NodeDom::MSet(_, _, member) => {
                let test = is_there(alloc, parts.table, parts.at, one)?;
                let gens = gens_where(alloc, one, member.get().copy(alloc)?, test)?;
                let item = name(alloc, one)?;
                Ok(Some(Alternative { gens, item }))
            }
            _ => Ok(None),
        },
        _ => Ok(None),
    }
}

/// The same of the parts of a view with one child.
fn once_in_slots(
    alloc: Global,
    one: &Text,
    slots: &Node,
    parts: &Nested<'_>,
) -> Result<Option<Alternative>, NoMemory>
    ensures { IfOk result (λ o. option_map pure_alternative o
        ≡ members_once one.now (pure_node slots.now) (fun1 false Fun.ToSet (nested_view (pure_nested parts.now)))) }
{
    match parts.kind {
        ReprKind::MSetExplicitWithFlags => match parts.dom {
            NodeDom::MSet(_, _, member) => match parts.cells.split_first() {
                Some((table, cells)) => {
                    let test = is_there(alloc, table, parts.at, one)?;
                    let gens = gens_where(alloc, one, slots_dom(alloc, slots)?, test)?;
                    let item = slot_view(alloc, parts.child, member.get(), cells, parts.at, one)?;
                    Ok(Some(Alternative { gens, item }))
                }
                None => Ok(None),
            },
            _ => Ok(None),
        },
        _ => Ok(None),
    }
}
