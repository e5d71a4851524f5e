//! Signs between lists, one of which is a comprehension over a source that is counted.
ghost use Rattle.std.specs.Prelude.{◌≡◌, option_map, IfOk};
ghost use Rattle.ess_core_nodes.specs.NodeViews.{pure_node, pure_gens};
ghost use Rattle.ess_node_types.specs.TypedNames.{pure_names};
ghost use Rattle.ess_rules_laws.specs.ListRules.{is_lex as lex};
ghost use Rattle.ess_numbered_laws.specs.OrderByNumber.{equal_before as before_equal, lower_at_a_number as lower_somewhere, begins_equally as begun_equally, counted_operand as operand_counted, order_by_number as order_numbers};
ghost use Rattle.ess_rules_numbered.specs.SideForms.{of_sides, both_numbered, lower_side, ordered_sides, ordered_most, ordered_pair as pair_ordered};
ghost use Rattle.ess_rules_ordered.specs.Supplies.{item_supply};

use crate::comparing::{Items, Sides, at_each_number, items_compared};
use crate::lists::counted_list;
use crate::sources::{is_number_of, items_counted, numbers_of};
use ess_core::{Fun, Op2};
use ess_core_nodes::{Gen, Node};
use ess_guard_forms::one_up_to;
use ess_node_building::{binary, comprehension, condition, name, over, word};
use ess_node_types::{NameTypes, type_of};
use ess_rows::{Boxed, NoMemory, Row};
use ess_rules_folds::is_laid_open;
use ess_rules_forms::{both, seen_type, truth_pair};
use ess_rules_ordered::{ItemNames, item_type};
use std::alloc::Global;

/// A sign between lists by the first number at which items differ, or how many there are, where one side is such a comprehension.
/// `NoMemory` where there is no room for it.
#[tactic(auto, using(crate::proofs::SideForms::order_by_sides, crate::proofs::SideForms::order_by_types, crate::proofs::SideForms::order_of_lex))]
pub fn order_by_number(
    alloc: Global,
    types: &NameTypes,
    names: &ItemNames<'_>,
    node: &Node,
) -> Result<Option<Boxed<Node>>, NoMemory>
    ensures { IfOk result (λ o. option_map pure_node o
        ≡ order_numbers (item_supply names.now) (pure_names types.now) (pure_node node.now)) }
{
    match truth_pair(node) {
        Some((op, (a, b))) => {
            if is_lex(op) {
                ordered_pair(alloc, types, names, op, a, b)
            } else {
                Ok(None)
            }
        }
        None => Ok(None),
    }
}

/// Whether it is a sign between lists.
fn is_lex(op: Op2) -> bool
    ensures { result ≡ lex op }
{
    match op {
        Op2::LexLt | Op2::LexLe | Op2::LexGt | Op2::LexGe => true,
        _ => false,
    }
}

/// The same of two operands.
fn ordered_pair(
    alloc: Global,
    types: &NameTypes,
    names: &ItemNames<'_>,
    op: Op2,
    a: &Node,
    b: &Node,
) -> Result<Option<Boxed<Node>>, NoMemory>
    ensures { IfOk result (λ o. option_map pure_node o
        ≡ pair_ordered (item_supply names.now) (pure_names types.now) op (pure_node a.now) (pure_node b.now)) }
{
    let most = counted_operand(alloc, types, names, a, b)?;
    let Some(most) = most else {
        return Ok(None);
    };
    ordered_up_to(alloc, types, names, op, most.get(), a, b)
}

/// How many items the side that is such a comprehension has at most, where both are lists.
fn counted_operand(
    alloc: Global,
    types: &NameTypes,
    names: &ItemNames<'_>,
    a: &Node,
    b: &Node,
) -> Result<Option<Boxed<Node>>, NoMemory>
    ensures { IfOk result (λ o. option_map pure_node o
        ≡ operand_counted (item_supply names.now) (pure_names types.now) (pure_node a.now) (pure_node b.now)) }
{
    if !(is_laid_open(a) && is_laid_open(b)) {
        return Ok(None);
    }
    if let Some(most) = counted_list(alloc, types, names, a)? {
        return Ok(Some(most));
    }
    counted_list(alloc, types, names, b)
}

/// The same, where one of them has as many items at most.
fn ordered_up_to(
    alloc: Global,
    types: &NameTypes,
    names: &ItemNames<'_>,
    op: Op2,
    most: &Node,
    a: &Node,
    b: &Node,
) -> Result<Option<Boxed<Node>>, NoMemory>
    ensures { IfOk result (λ o. option_map pure_node o
        ≡ ordered_most (item_supply names.now) (pure_names types.now) op (pure_node most.now) (pure_node a.now) (pure_node b.now)) }
{
    let first_type = type_of(alloc, a, types)?;
    let second_type = type_of(alloc, b, types)?;
    let (Some(first), Some(second)) = (
        item_type(seen_type(&first_type)),
        item_type(seen_type(&second_type)),
    ) else {
        return Ok(None);
    };
    let sides = Sides {
        one: names.item,
        other: names.other,
        most,
        first: Items {
            matrix: a,
            ty: first,
        },
        second: Items {
            matrix: b,
            ty: second,
        },
    };
    ordered_lists(alloc, op, &sides)
}

/// By the sign.
fn ordered_lists(alloc: Global, op: Op2, sides: &Sides<'_>) -> Result<Option<Boxed<Node>>, NoMemory>
    ensures { IfOk result (λ o. option_map pure_node o ≡ ordered_sides op sides.now) }
{
    match op {
        Op2::LexLt => Ok(Some(lower_list(alloc, Op2::Lt, sides)?)),
        Op2::LexLe => Ok(Some(lower_list(alloc, Op2::Le, sides)?)),
        Op2::LexGt => Ok(Some(lower_list(alloc, Op2::Lt, &turned(sides))?)),
        Op2::LexGe => Ok(Some(lower_list(alloc, Op2::Le, &turned(sides))?)),
        _ => Ok(None),
    }
}

/// The same matrices, the second before the first.
fn turned<'a>(sides: &Sides<'a>) -> Sides<'a>
    ensures { result ≡ record { one = sides.now.one; other = sides.now.other; most = sides.now.most; first = sides.now.second; second = sides.now.first } }
{
    Sides {
        one: sides.one,
        other: sides.other,
        most: sides.most,
        first: sides.second,
        second: sides.first,
    }
}

/// That the first list is lower than the second, or equal where the sign is so.
fn lower_list(alloc: Global, op: Op2, sides: &Sides<'_>) -> Result<Boxed<Node>, NoMemory>
    ensures { IfOk result (λ n. pure_node n ≡ lower_side op sides.now) }
{
    let lower = lower_at_a_number(alloc, sides)?;
    let begins = begins_equally(alloc, op, sides)?;
    binary(alloc, true, Op2::Or, lower, begins)
}

/// That the items before the number of the first name are equal.
fn equal_before(alloc: Global, sides: &Sides<'_>) -> Result<Boxed<Node>, NoMemory>
    ensures { IfOk result (λ n. pure_node n ≡ of_sides before_equal sides.now) }
{
    let equal = items_compared(alloc, Op2::Eq, sides.other, sides)?;
    let most = sides.most.copy(alloc)?;
    let axis = one_up_to(alloc, most)?;
    let left = name(alloc, sides.other)?;
    let right = name(alloc, sides.one)?;
    let mut gens = Row::new(alloc);
    gens.push(over(alloc, sides.other, axis)?)?;
    gens.push(condition(binary(alloc, true, Op2::Lt, left, right)?))?;
    word(alloc, true, Fun::And, comprehension(alloc, equal, gens)?)
}

/// That at some number both have an item, that of the first is lower, and the items before it are equal.
fn lower_at_a_number(alloc: Global, sides: &Sides<'_>) -> Result<Boxed<Node>, NoMemory>
    ensures { IfOk result (λ n. pure_node n ≡ of_sides lower_somewhere sides.now) }
{
    let lower = items_compared(alloc, Op2::Lt, sides.one, sides)?;
    let body = both(alloc, lower, equal_before(alloc, sides)?)?;
    let gens = numbers_of_both(alloc, sides)?;
    word(alloc, true, Fun::Or, comprehension(alloc, body, gens)?)
}

/// The numbers at which both have an item.
fn numbers_of_both(alloc: Global, sides: &Sides<'_>) -> Result<Row<Gen>, NoMemory>
    ensures { IfOk result (λ gs. pure_gens gs ≡ both_numbered sides.now) }
{
    let mut rest = Row::new(alloc);
    rest.push(is_number_of(alloc, sides.one, sides.other, sides.second.matrix)?)?;
    numbers_of(
        alloc,
        sides.one,
        sides.other,
        sides.most,
        sides.first.matrix,
        rest,
    )
}

/// That the first has fewer items than the second, or no more, and these are equal.
fn begins_equally(alloc: Global, op: Op2, sides: &Sides<'_>) -> Result<Boxed<Node>, NoMemory>
    ensures { IfOk result (λ n. pure_node n ≡ of_sides (begun_equally op) sides.now) }
{
    let left = items_counted(alloc, sides.other, sides.first.matrix)?;
    let right = items_counted(alloc, sides.other, sides.second.matrix)?;
    let fewer = binary(alloc, true, op, left, right)?;
    let equal = items_compared(alloc, Op2::Eq, sides.one, sides)?;
    both(alloc, fewer, at_each_number(alloc, sides, equal)?)
}
