//! How often a member is in a multiset.
ghost use Rattle.std.specs.Prelude.{◌≡◌, true, false, option_map, IfOk, map, ◌∷◌, []};
ghost use Rattle.ess_semantics.specs.Trees.{ex2, name_pat, name_ex};
ghost use Rattle.ess_core.specs.TreeViews.{over_item, cond_item};
ghost use Rattle.ess_core_nodes.specs.NodeViews.{pure_node, pure_gen, pure_dom};
ghost use Rattle.ess_views_laws.specs.MultisetViews.{multiset_frequency};
ghost use Rattle.ess_rules_kinds.specs.ViewParts.{leaf_view, nested_view};
ghost use Rattle.ess_rules_kinds.specs.CodeParts.{pure_leaf, pure_nested};
ghost use Rattle.ess_rules_multisets.specs.Asked.{frequency_of};

use crate::forms::a_frequency;
use ess_core::{Fun, Op2, ReprKind};
use ess_core_nodes::{Gen, Node, NodeDom};
use ess_node_building::{binary, comprehension, condition, name, word};
use ess_rows::{Boxed, NoMemory, Row, Text};
use ess_rules_kinds::pieces::{gens_where, is_there, slot_cell, slot_view, slots_dom};
use ess_rules_kinds::{Leaf, Nested, leaf_parts, nested_parts};
use std::alloc::Global;

/// `freq(v, a)` is the sum of the numbers at the members that are a; of slots, of those in use whose view is a. The tree says how many
/// slots there are, the name is a new one. Nothing for another tree; `NoMemory` where there is no room for it.
#[tactic(auto, using(crate::proofs::MultisetForms::frequency_by_operands))]
pub fn multiset_frequency(
    alloc: Global,
    one: &Text,
    slots: &Node,
    node: &Node,
) -> Result<Option<Boxed<Node>>, NoMemory>
    ensures { IfOk result (λ o. option_map pure_node o ≡ multiset_frequency one.now (pure_node slots.now) (pure_node node.now)) }
{
    match a_frequency(node) {
        Some((view, member)) => frequency_in(alloc, one, slots, view, member),
        None => Ok(None),
    }
}

/// The same of the multiset and the member.
#[tactic(auto, using(crate::proofs::MultisetForms::frequency_by_parts))]
fn frequency_in(
    alloc: Global,
    one: &Text,
    slots: &Node,
    view: &Node,
    member: &Node,
) -> Result<Option<Boxed<Node>>, NoMemory>
    ensures { IfOk result (λ o. option_map pure_node o
        ≡ multiset_frequency one.now (pure_node slots.now) (frequency_of (pure_node view.now) (pure_node member.now))) }
{
    match leaf_parts(view) {
        Some(parts) => frequency_over(alloc, one, slots, member, &parts),
        None => match nested_parts(view) {
            Some(parts) => frequency_in_slots(alloc, one, slots, member, &parts),
            None => Ok(None),
        },
    }
}

/// The same of the parts of a view over one table.
fn frequency_over(
    alloc: Global,
    one: &Text,
    slots: &Node,
    member: &Node,
    parts: &Leaf<'_>,
) -> Result<Option<Boxed<Node>>, NoMemory>
    ensures { IfOk result (λ o. option_map pure_node o
        ≡ multiset_frequency one.now (pure_node slots.now) (frequency_of (leaf_view (pure_leaf parts.now)) (pure_node member.now))) }
{
    match parts.kind {
        ReprKind::MSetOccurrence => match parts.dom {
            NodeDom::MSet(_, _, dom) => {
                let number = slot_cell(alloc, false, parts.table, parts.at, one)?;
                let gens = those_that_are(alloc, one, dom.get(), member)?;
                let list = comprehension(alloc, number, gens)?;
                Ok(Some(word(alloc, false, Fun::Sum, list)?))
            }
            _ => Ok(None),
        },
        _ => Ok(None),
    }
}

/// The name over the domain where it is the member.
pub(crate) fn those_that_are(
    alloc: Global,
    one: &Text,
    dom: &NodeDom,
    member: &Node,
) -> Result<Row<Gen>, NoMemory>
    ensures { IfOk result (λ gs. map pure_gen gs ≡ over_item (name_pat one.now) (pure_dom dom.now)
        ∷ cond_item (ex2 true Op2.Eq (name_ex one.now) (pure_node member.now)) ∷ []) }
{
    let named = name(alloc, one)?;
    let test = binary(alloc, true, Op2::Eq, named, member.copy(alloc)?)?;
    gens_where(alloc, one, dom.copy(alloc)?, test)
}

/// The same of the parts of a view with one child.
fn frequency_in_slots(
    alloc: Global,
    one: &Text,
    slots: &Node,
    member: &Node,
    parts: &Nested<'_>,
) -> Result<Option<Boxed<Node>>, NoMemory>
    ensures { IfOk result (λ o. option_map pure_node o
        ≡ multiset_frequency one.now (pure_node slots.now) (frequency_of (nested_view (pure_nested parts.now)) (pure_node member.now))) }
{
    match parts.kind {
        ReprKind::MSetExplicitWithFlags => match parts.dom {
            NodeDom::MSet(_, _, dom) => match parts.cells.split_first() {
                Some((table, cells)) => {
                    let number = slot_cell(alloc, false, table, parts.at, one)?;
                    let used = is_there(alloc, table, parts.at, one)?;
                    let mut gens = gens_where(alloc, one, slots_dom(alloc, slots)?, used)?;
                    let held = slot_view(alloc, parts.child, dom.get(), cells, parts.at, one)?;
                    let test = binary(alloc, true, Op2::Eq, member.copy(alloc)?, held)?;
                    gens.push(condition(test))?;
                    let list = comprehension(alloc, number, gens)?;
                    Ok(Some(word(alloc, false, Fun::Sum, list)?))
                }
                None => Ok(None),
            },
            _ => Ok(None),
        },
        _ => Ok(None),
    }
}
