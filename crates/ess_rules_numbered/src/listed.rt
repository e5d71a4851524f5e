//! Comprehensions over what is picked, where that may be a matrix that isn't numbered from 1: lists are put in place.
ghost use Rattle.std.specs.Prelude.{◌≡◌, option_map, is_some, IfOk};
ghost use Rattle.ess_core_nodes.specs.NodeViews.{pure_node};
ghost use Rattle.ess_node_types.specs.TypedNames.{pure_names};
ghost use Rattle.ess_numbered_laws.specs.MostItems.{most_items as items_most};
ghost use Rattle.ess_numbered_laws.specs.ListedPicks.{listed_term as term_listed, listed_behind as behind_listed, lists_picked as picked_lists};
ghost use Rattle.ess_rules_numbered.specs.CountedForms.{item_at as indexed};
ghost use Rattle.ess_rules_numbered.specs.ListedForms.{listed_sides as sides_listed};
ghost use Rattle.ess_rules_ordered.specs.Supplies.{item_supply};

use crate::as_lists::with_lists;
use crate::behind::{behind_in, item_by_number, item_in, with_source};
use crate::items::sees_order;
use crate::most::most_items;
use crate::sources::is_counted;
use ess_core::Op2;
use ess_core_nodes::Node;
use ess_node_building::binary;
use ess_node_types::{NameTypes, names_behind};
use ess_rows::{Boxed, NoMemory, Text};
use ess_rules_forms::truth_pair;
use ess_rules_ordered::ItemNames;
use std::alloc::Global;

/// An item of a comprehension over what is picked, or equality of matrices or a sign between lists, one side of which is such a
/// comprehension: with lists in place of matrices that aren't numbered from 1, where only that tells how many items there are at most.
/// `NoMemory` where there is no room for it.
#[tactic(auto, using(crate::proofs::ListedForms::picked_by_form))]
pub fn lists_picked(
    alloc: Global,
    types: &NameTypes,
    names: &ItemNames<'_>,
    node: &Node,
) -> Result<Option<Boxed<Node>>, NoMemory>
    ensures { IfOk result (λ o. option_map pure_node o
        ≡ picked_lists (item_supply names.now) (pure_names types.now) (pure_node node.now)) }
{
    if let Some((mark, (list, at))) = item_in(node) {
        return listed_item(alloc, types, names, mark, list, at);
    }
    match truth_pair(node) {
        Some((op, (a, b))) => {
            if sees_order(op) {
                listed_sides(alloc, types, names, op, a, b)
            } else {
                Ok(None)
            }
        }
        None => Ok(None),
    }
}

/// The same of a list and an index.
fn listed_item(
    alloc: Global,
    types: &NameTypes,
    names: &ItemNames<'_>,
    mark: bool,
    list: &Node,
    at: &Node,
) -> Result<Option<Boxed<Node>>, NoMemory>
    ensures { IfOk result (λ o. option_map pure_node o
        ≡ option_map (λ c. indexed mark c (pure_node at.now))
        (behind_listed (item_supply names.now) (pure_names types.now) (pure_node list.now))) }
{
    let new = listed_behind(alloc, types, names, list)?;
    match new {
        Some(new) => Ok(Some(item_by_number(alloc, mark, new, at)?)),
        None => Ok(None),
    }
}

/// The same of the first side, else of the second.
fn listed_sides(
    alloc: Global,
    types: &NameTypes,
    names: &ItemNames<'_>,
    op: Op2,
    a: &Node,
    b: &Node,
) -> Result<Option<Boxed<Node>>, NoMemory>
    ensures { IfOk result (λ o. option_map pure_node o
        ≡ sides_listed (item_supply names.now) (pure_names types.now) op (pure_node a.now) (pure_node b.now)) }
{
    if let Some(first) = listed_behind(alloc, types, names, a)? {
        let second = b.copy(alloc)?;
        return Ok(Some(binary(alloc, true, op, first, second)?));
    }
    match listed_behind(alloc, types, names, b)? {
        Some(second) => {
            let first = a.copy(alloc)?;
            Ok(Some(binary(alloc, true, op, first, second)?))
        }
        None => Ok(None),
    }
}

/// A comprehension with lists put in place in its first source that isn't plain.
#[tactic(auto, using(crate::proofs::ListedForms::listed_by_parts))]
fn listed_behind(
    alloc: Global,
    types: &NameTypes,
    names: &ItemNames<'_>,
    node: &Node,
) -> Result<Option<Boxed<Node>>, NoMemory>
    ensures { IfOk result (λ o. option_map pure_node o
        ≡ behind_listed (item_supply names.now) (pure_names types.now) (pure_node node.now)) }
{
    let Some(parts) = behind_in(node) else {
        return Ok(None);
    };
    let under = names_behind(alloc, parts.before, types)?;
    let list = listed_term(alloc, &under, names, parts.source)?;
    match list {
        Some(list) => Ok(Some(with_source(alloc, &parts, list)?)),
        None => Ok(None),
    }
}

/// A counted term with lists put in place, where only that tells how many items it has at most.
fn listed_term(
    alloc: Global,
    types: &NameTypes,
    names: &ItemNames<'_>,
    term: &Node,
) -> Result<Option<Boxed<Node>>, NoMemory>
    ensures { IfOk result (λ o. option_map pure_node o
        ≡ term_listed (item_supply names.now) (pure_names types.now) (pure_node term.now)) }
{
    if !is_counted(alloc, types, names, term)? || has_most(alloc, names.counted, term)? {
        return Ok(None);
    }
    let list = with_lists(alloc, names.item, 0, term)?;
    if has_most(alloc, names.counted, list.get())? {
        Ok(Some(list))
    } else {
        Ok(None)
    }
}

/// Whether the forms of a term tell how many items it has at most.
fn has_most(alloc: Global, one: &Text, term: &Node) -> Result<bool, NoMemory>
    ensures { IfOk result (λ b. b ≡ is_some (items_most one.now (pure_node term.now))) }
{
    let most = most_items(alloc, one, term)?;
    Ok(most.is_some())
}
