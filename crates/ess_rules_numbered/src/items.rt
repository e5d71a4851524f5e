//! An item of a comprehension by its number, where the first generator that isn't plain runs over a source that is counted.
ghost use Rattle.std.specs.Prelude.{◌≡◌, option_map, IfOk};
ghost use Rattle.ess_core_nodes.specs.NodeViews.{pure_node};
ghost use Rattle.ess_node_types.specs.TypedNames.{pure_names};
ghost use Rattle.ess_numbered_laws.specs.CountedSources.{numbered_behind as behind_numbers, numbered_side as side_numbers};
ghost use Rattle.ess_numbered_laws.specs.CountedSources.{within_an_item as item_within, sees_order as order_seen, within_a_pair as pair_within};
ghost use Rattle.ess_rules_numbered.specs.CountedForms.{within_sides as sides_within};
ghost use Rattle.ess_rules_ordered.specs.Supplies.{item_supply};

use crate::behind::{behind_in, item_by_number, item_in, with_source};
use crate::most::most_items;
use crate::sources::numbered_term;
use ess_core::Op2;
use ess_core_nodes::Node;
use ess_node_building::binary;
use ess_node_types::{NameTypes, names_behind};
use ess_rows::{Boxed, NoMemory};
use ess_rules_forms::truth_pair;
use ess_rules_ordered::ItemNames;
use std::alloc::Global;

/// An item of a comprehension by its number, with the items of its first source that isn't plain by their numbers, where that is counted.
/// `NoMemory` where there is no room for it.
#[tactic(auto, using(crate::proofs::CountedForms::item_by_parts))]
pub fn within_an_item(
    alloc: Global,
    types: &NameTypes,
    names: &ItemNames<'_>,
    node: &Node,
) -> Result<Option<Boxed<Node>>, NoMemory>
    ensures { IfOk result (λ o. option_map pure_node o
        ≡ item_within (item_supply names.now) (pure_names types.now) (pure_node node.now)) }
{
    let Some((mark, (list, at))) = item_in(node) else {
        return Ok(None);
    };
    let new = numbered_behind(alloc, types, names, list)?;
    match new {
        Some(new) => Ok(Some(item_by_number(alloc, mark, new, at)?)),
        None => Ok(None),
    }
}

/// Equality of matrices or a sign between lists, one side of which is such a comprehension. `NoMemory` where there is no room for it.
#[tactic(auto, using(crate::proofs::CountedForms::pair_by_sides))]
pub fn within_a_pair(
    alloc: Global,
    types: &NameTypes,
    names: &ItemNames<'_>,
    node: &Node,
) -> Result<Option<Boxed<Node>>, NoMemory>
    ensures { IfOk result (λ o. option_map pure_node o
        ≡ pair_within (item_supply names.now) (pure_names types.now) (pure_node node.now)) }
{
    match truth_pair(node) {
        Some((op, (a, b))) => {
            if sees_order(op) {
                within_sides(alloc, types, names, op, a, b)
            } else {
                Ok(None)
            }
        }
        None => Ok(None),
    }
}

/// Whether order counts between matrices: equality, or a sign between lists.
pub(crate) fn sees_order(op: Op2) -> bool
    ensures { result ≡ order_seen op }
{
    match op {
        Op2::Eq | Op2::LexLt | Op2::LexLe | Op2::LexGt | Op2::LexGe => true,
        _ => false,
    }
}

/// The same of the first side, else of the second.
fn within_sides(
    alloc: Global,
    types: &NameTypes,
    names: &ItemNames<'_>,
    op: Op2,
    a: &Node,
    b: &Node,
) -> Result<Option<Boxed<Node>>, NoMemory>
    ensures { IfOk result (λ o. option_map pure_node o
        ≡ sides_within (item_supply names.now) (pure_names types.now) op (pure_node a.now) (pure_node b.now)) }
{
    if let Some(first) = numbered_side(alloc, types, names, a)? {
        let second = b.copy(alloc)?;
        return Ok(Some(binary(alloc, true, op, first, second)?));
    }
    match numbered_side(alloc, types, names, b)? {
        Some(second) => {
            let first = a.copy(alloc)?;
            Ok(Some(binary(alloc, true, op, first, second)?))
        }
        None => Ok(None),
    }
}

/// A side by the numbers of its first source that isn't plain, where nothing tells how many items the side has at most.
fn numbered_side(
    alloc: Global,
    types: &NameTypes,
    names: &ItemNames<'_>,
    side: &Node,
) -> Result<Option<Boxed<Node>>, NoMemory>
    ensures { IfOk result (λ o. option_map pure_node o
        ≡ side_numbers (item_supply names.now) (pure_names types.now) (pure_node side.now)) }
{
    match most_items(alloc, names.counted, side)? {
        Some(most) => {
            drop(most);
            Ok(None)
        }
        None => numbered_behind(alloc, types, names, side),
    }
}

/// A comprehension with the items of its first source that isn't plain by their numbers, where that is counted.
#[tactic(auto, using(crate::proofs::CountedForms::behind_by_parts))]
fn numbered_behind(
    alloc: Global,
    types: &NameTypes,
    names: &ItemNames<'_>,
    node: &Node,
) -> Result<Option<Boxed<Node>>, NoMemory>
    ensures { IfOk result (λ o. option_map pure_node o
        ≡ behind_numbers (item_supply names.now) (pure_names types.now) (pure_node node.now)) }
{
    let Some(parts) = behind_in(node) else {
        return Ok(None);
    };
    let under = names_behind(alloc, parts.before, types)?;
    let items = numbered_term(alloc, &under, names, parts.source)?;
    match items {
        Some(items) => Ok(Some(with_source(alloc, &parts, items)?)),
        None => Ok(None),
    }
}
