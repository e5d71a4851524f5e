ghost use Rattle.std.specs.Prelude.{◌≡◌, [], ◌∷◌, ◌++◌, map, is_some, option_map, IfOk, OnOk};
ghost use Rattle.std.specs.Option.{option_copied};
ghost use Rattle.ess_semantics.specs.Values.{from_of as the_from, to_of as the_to};
ghost use Rattle.ess_semantics.specs.Order.{same as are_same};
ghost use Rattle.ess_semantics.specs.Collections.{value_at as the_value_at};
ghost use Rattle.ess_semantics.specs.Canonical.{somes};
ghost use Rattle.ess_core.specs.ValueViews.{pure_val};
ghost use Rattle.ess_eval_domains.specs.ClosedViews.{pure_closed};
ghost use Rattle.ess_repr_functions.specs.FunctionRows.{values_at_members as the_values_at_members, has_values as members_with_values};

use ess_core::{NoMemory, Row, Val};
use ess_eval_domains::Closed;
use ess_eval_operators::items_of;
use ess_repr_sets::member_list;
use ess_values::order;
use std::alloc::Global;
use std::cmp::Ordering;

/// The values of a function at the members of a domain, where it has one. `NoMemory` where there is no room for them.
pub(crate) fn values_at_members(
    alloc: Global,
    from: &Closed,
    value: &Val,
) -> Result<Row<Val>, NoMemory>
    ensures { IfOk result (λ r. map pure_val r ≡ the_values_at_members (pure_closed from.now) (pure_val value.now)) }
{
    let members = member_list(alloc, from)?;
    let items = items_of(alloc, value)?;
    values_at(alloc, items.as_slice(), members.as_slice())
}

/// Of each member of a domain whether a function has a value there. `NoMemory` where there is no room for the answers.
pub(crate) fn has_values(alloc: Global, from: &Closed, value: &Val) -> Result<Row<bool>, NoMemory>
    ensures { IfOk result (λ r. r ≡ members_with_values (pure_closed from.now) (pure_val value.now)) }
{
    let members = member_list(alloc, from)?;
    let items = items_of(alloc, value)?;
    marks_at(alloc, items.as_slice(), members.as_slice())
}

/// Copies of the values of a function, given by its pairs, at these arguments, where it has one. `NoMemory` where there is no room
/// for them.
fn values_at(alloc: Global, items: &[Val], arguments: &[Val]) -> Result<Row<Val>, NoMemory>
    ensures { IfOk result (λ r. map pure_val r ≡ somes (map (the_value_at (map pure_val items.now)) (map pure_val arguments.now))) }
{
    let mut values = Row::new(alloc);
    for argument in arguments {
        add_value(alloc, &mut values, items, argument)?;
    }
    Ok(values)
}

/// Puts a copy of the value at an argument behind others, where there is one. `NoMemory` where there is no room for it.
fn add_value(
    alloc: Global,
    values: &mut Row<Val>,
    items: &[Val],
    argument: &Val,
) -> Result<(), NoMemory>
    ensures { OnOk result (map pure_val values.new ≡
        map pure_val values.old ++ somes (the_value_at (map pure_val items.now) (pure_val argument.now) ∷ [])) }
{
    match value_at(items, argument) {
        Some(value) => match value.copy(alloc) {
            Ok(copy) => values.push(copy),
            Err(no) => Err(no),
        },
        None => Ok(()),
    }
}

/// Of each argument whether a function, given by its pairs, has a value there. `NoMemory` where there is no room for the answers.
fn marks_at(alloc: Global, items: &[Val], arguments: &[Val]) -> Result<Row<bool>, NoMemory>
    ensures { IfOk result (λ r. r ≡ map is_some (map (the_value_at (map pure_val items.now)) (map pure_val arguments.now))) }
{
    let mut marks = Row::with_capacity(alloc, arguments.len())?;
    for argument in arguments {
        marks.push(has_value(items, argument))?;
    }
    Ok(marks)
}

/// Whether a function, given by its pairs, has a value at an argument.
fn has_value(items: &[Val], argument: &Val) -> bool
    ensures { result ≡ is_some (the_value_at (map pure_val items.now) (pure_val argument.now)) }
{
    value_at(items, argument).is_some()
}

/// The value of a function, given by its pairs, at an argument.
fn value_at<'a>(items: &'a [Val], argument: &Val) -> Option<&'a Val>
    ensures { option_map pure_val (option_copied result) ≡ the_value_at (map pure_val items.now) (pure_val argument.now) }
{
    for item in items {
        if same(from_of(item), argument) {
            return Some(to_of(item));
        }
    }
    None
}

/// Whether two values are equal.
fn same(a: &Val, b: &Val) -> bool
    ensures { result ≡ are_same (pure_val a.now) (pure_val b.now) }
{
    order(a, b) == Ordering::Equal
}

/// The first part of a pair; any other value itself.
#[tactic(auto, using(ess_eval_operators::proofs::PairParts::pair_parts))]
fn from_of(val: &Val) -> &Val
    ensures { pure_val result.now ≡ the_from (pure_val val.now) }
{
    match val {
        Val::Tuple(parts) => {
            if parts.len() == 2 {
                &parts.as_slice()[0]
            } else {
                val
            }
        }
        _ => val,
    }
}

/// The second part of a pair; any other value itself.
#[tactic(auto, using(ess_eval_operators::proofs::PairParts::pair_parts))]
fn to_of(val: &Val) -> &Val
    ensures { pure_val result.now ≡ the_to (pure_val val.now) }
{
    match val {
        Val::Tuple(parts) => {
            if parts.len() == 2 {
                &parts.as_slice()[1]
            } else {
                val
            }
        }
        _ => val,
    }
}
