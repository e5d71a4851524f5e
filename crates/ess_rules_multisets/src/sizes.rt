//! Sizes of multisets.
ghost use Rattle.std.specs.Prelude.{◌≡◌, false, option_map, IfOk};
ghost use Rattle.ess_semantics.specs.declared.words.Op1.{Op1};
ghost use Rattle.ess_semantics.specs.Trees.{ex1};
ghost use Rattle.ess_core_nodes.specs.NodeViews.{pure_node};
ghost use Rattle.ess_views_laws.specs.MultisetViews.{multiset_size};
ghost use Rattle.ess_rules_kinds.specs.ViewParts.{leaf_view, nested_view};
ghost use Rattle.ess_rules_kinds.specs.CodeParts.{pure_leaf, pure_nested};

use crate::forms::a_size;
use ess_core::{Fun, ReprKind};
use ess_core_nodes::{Node, NodeDom, copy_nodes};
use ess_node_building::{comprehension, word};
use ess_rows::{Boxed, NoMemory, Text};
use ess_rules_kinds::pieces::{cell, gens_over, slot_cell, slots_dom};
use ess_rules_kinds::{Leaf, Nested, leaf_parts, nested_parts};
use std::alloc::Global;

/// `|v|` of a multiset is the sum of the numbers of its members, or of its slots, or the marker. The tree says how many slots there are,
/// the name is a new one. Nothing for another tree; `NoMemory` where there is no room for it.
#[tactic(auto, using(crate::proofs::MultisetForms::size_by_operand))]
pub fn multiset_size(
    alloc: Global,
    one: &Text,
    slots: &Node,
    node: &Node,
) -> Result<Option<Boxed<Node>>, NoMemory>
    ensures { IfOk result (λ o. option_map pure_node o ≡ multiset_size one.now (pure_node slots.now) (pure_node node.now)) }
{
    match a_size(node) {
        Some(view) => size_of(alloc, one, slots, view),
        None => Ok(None),
    }
}

/// The same of the multiset.
#[tactic(auto, using(crate::proofs::MultisetForms::size_by_parts))]
fn size_of(
    alloc: Global,
    one: &Text,
    slots: &Node,
    view: &Node,
) -> Result<Option<Boxed<Node>>, NoMemory>
    ensures { IfOk result (λ o. option_map pure_node o
        ≡ multiset_size one.now (pure_node slots.now) (ex1 false Op1.Bar (pure_node view.now))) }
{
    match leaf_parts(view) {
        Some(parts) => size_over(alloc, one, slots, &parts),
        None => match nested_parts(view) {
            Some(parts) => size_in_slots(alloc, one, slots, &parts),
            None => Ok(None),
        },
    }
}

/// The same of the parts of a view over one table.
fn size_over(
    alloc: Global,
    one: &Text,
    slots: &Node,
    parts: &Leaf<'_>,
) -> Result<Option<Boxed<Node>>, NoMemory>
    ensures { IfOk result (λ o. option_map pure_node o
        ≡ multiset_size one.now (pure_node slots.now) (ex1 false Op1.Bar (leaf_view (pure_leaf parts.now)))) }
{
    match parts.kind {
        ReprKind::MSetOccurrence => match parts.dom {
            NodeDom::MSet(_, _, member) => {
                let number = slot_cell(alloc, false, parts.table, parts.at, one)?;
                let gens = gens_over(alloc, one, member.get().copy(alloc)?)?;
                let list = comprehension(alloc, number, gens)?;
                Ok(Some(word(alloc, false, Fun::Sum, list)?))
            }
            _ => Ok(None),
        },
        _ => Ok(None),
    }
}

/// The same of the parts of a view with one child.
fn size_in_slots(
    alloc: Global,
    one: &Text,
    slots: &Node,
    parts: &Nested<'_>,
) -> Result<Option<Boxed<Node>>, NoMemory>
    ensures { IfOk result (λ o. option_map pure_node o
        ≡ multiset_size one.now (pure_node slots.now) (ex1 false Op1.Bar (nested_view (pure_nested parts.now)))) }
{
    match parts.kind {
        ReprKind::MSetExplicitWithRepetition => match parts.dom {
            NodeDom::MSet(_, _, _) => match parts.cells.split_first() {
                Some((marker, _)) => {
                    let at = copy_nodes(alloc, parts.at)?;
                    Ok(Some(cell(alloc, false, marker, at)?))
                }
                None => Ok(None),
            },
            _ => Ok(None),
        },
        ReprKind::MSetExplicitWithFlags => match parts.dom {
            NodeDom::MSet(_, _, _) => match parts.cells.split_first() {
                Some((table, _)) => {
                    let number = slot_cell(alloc, false, table, parts.at, one)?;
                    let gens = gens_over(alloc, one, slots_dom(alloc, slots)?)?;
                    let list = comprehension(alloc, number, gens)?;
                    Ok(Some(word(alloc, false, Fun::Sum, list)?))
                }
                None => Ok(None),
            },
            _ => Ok(None),
        },
        _ => Ok(None),
    }
}
