//! Equality of matrices, one of which is a comprehension over a source that is counted.
ghost use Rattle.std.specs.Prelude.{◌≡◌, option_map, IfOk};
ghost use Rattle.ess_core_nodes.specs.NodeViews.{pure_node, pure_dom};
ghost use Rattle.ess_node_types.specs.TypedNames.{pure_names};
ghost use Rattle.ess_numbered_laws.specs.EqualByNumber.{equal_lists as lists_equal, equal_over as over_equal, equal_counted as counted_equal, equal_by_number as equal_numbers};
ghost use Rattle.ess_rules_numbered.specs.SideForms.{at_numbers, items_at, as_many, of_sides, equal_told, numbers_lie, equal_most};
ghost use Rattle.ess_rules_ordered.specs.Supplies.{item_supply};

use crate::comparing::{Items, Sides, at_each_number, items_compared};
use crate::lists::counted_list;
use crate::sources::items_counted;
use crate::sums::members_counted;
use ess_core::Op2;
use ess_core_nodes::{Node, NodeDom};
use ess_node_building::{binary, name};
use ess_node_types::{NameTypes, type_of};
use ess_rows::{Boxed, NoMemory};
use ess_rules_folds::is_laid_open;
use ess_rules_forms::{both, seen_type, some_over, truth_pair};
use ess_rules_ordered::{ItemNames, item_type, told_axis};
use std::alloc::Global;

/// Equality of matrices by how many items there are, and item by item, where one side is such a comprehension. `NoMemory` where there is
/// no room for it.
#[tactic(auto, using(crate::proofs::SideForms::equality_by_sides))]
pub fn equal_by_number(
    alloc: Global,
    types: &NameTypes,
    names: &ItemNames<'_>,
    node: &Node,
) -> Result<Option<Boxed<Node>>, NoMemory>
    ensures { IfOk result (λ o. option_map pure_node o
        ≡ equal_numbers (item_supply names.now) (pure_names types.now) (pure_node node.now)) }
{
    match truth_pair(node) {
        Some((Op2::Eq, (a, b))) => {
            if let Some(new) = equal_counted(alloc, types, names, a, b)? {
                return Ok(Some(new));
            }
            equal_counted(alloc, types, names, b, a)
        }
        _ => Ok(None),
    }
}

/// The same, where the first is such a comprehension.
#[tactic(auto, using(crate::proofs::SideForms::equality_by_types))]
fn equal_counted(
    alloc: Global,
    types: &NameTypes,
    names: &ItemNames<'_>,
    a: &Node,
    b: &Node,
) -> Result<Option<Boxed<Node>>, NoMemory>
    ensures { IfOk result (λ o. option_map pure_node o
        ≡ counted_equal (item_supply names.now) (pure_names types.now) (pure_node a.now) (pure_node b.now)) }
{
    let most = counted_list(alloc, types, names, a)?;
    let Some(most) = most else {
        return Ok(None);
    };
    equal_up_to(alloc, types, names, most.get(), a, b)
}

/// The same, where the first has as many items at most.
fn equal_up_to(
    alloc: Global,
    types: &NameTypes,
    names: &ItemNames<'_>,
    most: &Node,
    a: &Node,
    b: &Node,
) -> Result<Option<Boxed<Node>>, NoMemory>
    ensures { IfOk result (λ o. option_map pure_node o
        ≡ equal_most (item_supply names.now) (pure_names types.now) (pure_node most.now) (pure_node a.now) (pure_node b.now)) }
{
    let first_type = type_of(alloc, a, types)?;
    let second_type = type_of(alloc, b, types)?;
    let (Some(first), Some(second)) = (
        item_type(seen_type(&first_type)),
        item_type(seen_type(&second_type)),
    ) else {
        return Ok(None);
    };
    let sides = Sides {
        one: names.item,
        other: names.other,
        most,
        first: Items {
            matrix: a,
            ty: first,
        },
        second: Items {
            matrix: b,
            ty: second,
        },
    };
    equal_sides(alloc, &sides)
}

/// By what the second is: a list, or a matrix whose index domain is told.
fn equal_sides(alloc: Global, sides: &Sides<'_>) -> Result<Option<Boxed<Node>>, NoMemory>
    ensures { IfOk result (λ o. option_map pure_node o ≡ equal_told sides.now) }
{
    if is_laid_open(sides.second.matrix) {
        return Ok(Some(equal_lists(alloc, sides)?));
    }
    let axis = told_axis(alloc, sides.second.matrix)?;
    match axis {
        Some(axis) => Ok(Some(equal_over(alloc, axis.get(), sides)?)),
        None => Ok(None),
    }
}

/// That the first has as many items as so many.
fn as_many_items(
    alloc: Global,
    sides: &Sides<'_>,
    number: Boxed<Node>,
) -> Result<Boxed<Node>, NoMemory>
    ensures { IfOk result (λ n. pure_node n ≡ as_many sides.now (pure_node number)) }
{
    let count = items_counted(alloc, sides.other, sides.first.matrix)?;
    binary(alloc, true, Op2::Eq, count, number)
}

/// That the items of both are equal at each number.
fn equal_items(alloc: Global, sides: &Sides<'_>) -> Result<Boxed<Node>, NoMemory>
    ensures { IfOk result (λ n. pure_node n ≡ at_numbers sides.now (items_at Op2.Eq sides.now.one.now sides.now)) }
{
    let equal = items_compared(alloc, Op2::Eq, sides.one, sides)?;
    at_each_number(alloc, sides, equal)
}

/// That two lists have as many items, which are equal.
fn equal_lists(alloc: Global, sides: &Sides<'_>) -> Result<Boxed<Node>, NoMemory>
    ensures { IfOk result (λ n. pure_node n ≡ of_sides lists_equal sides.now) }
{
    let number = items_counted(alloc, sides.other, sides.second.matrix)?;
    let same = as_many_items(alloc, sides, number)?;
    both(alloc, same, equal_items(alloc, sides)?)
}

/// That a list and a matrix over the domain have as many items, which are equal, and that each number is a member of the domain.
fn equal_over(alloc: Global, dom: &NodeDom, sides: &Sides<'_>) -> Result<Boxed<Node>, NoMemory>
    ensures { IfOk result (λ n. pure_node n ≡ of_sides (over_equal (pure_dom dom.now)) sides.now) }
{
    let number = members_counted(alloc, sides.other, dom)?;
    let same = as_many_items(alloc, sides, number)?;
    let there = numbers_in(alloc, dom, sides)?;
    let same = both(alloc, same, there)?;
    both(alloc, same, equal_items(alloc, sides)?)
}

/// That each number is a member of the domain.
fn numbers_in(alloc: Global, dom: &NodeDom, sides: &Sides<'_>) -> Result<Boxed<Node>, NoMemory>
    ensures { IfOk result (λ n. pure_node n ≡ numbers_lie (pure_dom dom.now) sides.now) }
{
    let left = name(alloc, sides.other)?;
    let right = name(alloc, sides.one)?;
    let equal = binary(alloc, true, Op2::Eq, left, right)?;
    let there = some_over(alloc, sides.other, dom, equal)?;
    at_each_number(alloc, sides, there)
}
