ghost use Rattle.std.specs.Prelude.{◌≡◌, ◌++◌, ◌+ℤ◌, None, Some, map, option_map, pos, if◌then◌else◌, IfOk};
ghost use Rattle.ess_semantics.specs.Lists.{and_then, each_of, append_all};
ghost use Rattle.ess_semantics.specs.Collections.{set_of as the_set};
ghost use Rattle.ess_semantics.specs.Domains.{integers};
ghost use Rattle.ess_semantics.specs.SetLayers.{dummy_of, but_dummy};
ghost use Rattle.ess_core.specs.ValueViews.{pure_val};
ghost use Rattle.ess_core.specs.TableViews.{pure_table};
ghost use Rattle.ess_eval_domains.specs.ClosedViews.{pure_closed, pure_span};
ghost use Rattle.ess_repr_sets.specs.SetRows.{dummy_tables as tables_with_dummies};

use crate::atoms::{atom_value, codes};
use crate::fillers::filled_with;
use ess_core::{NoMemory, Row, Table, Val};
use ess_eval_domains::{Closed, Span};
use ess_eval_operators::items_of;
use ess_repr_slots::{one_row, slot_axis};
use ess_values::set_of;
use std::alloc::Global;

/// The number above all members of an atom, where there is one. `NoMemory` where it is outside 64 bits: no table has that many.
pub fn dummy(member: &Closed) -> Result<Option<i64>, NoMemory>
    ensures { IfOk result (λ o. o ≡ dummy_of (pure_closed member.now)) }
{
    match member {
        Closed::Int(spans) => above_last(spans.as_slice()),
        Closed::Named(_, count) => match i64::try_from(*count) {
            Ok(last) => above(last),
            Err(_) => Err(NoMemory),
        },
        _ => Ok(None),
    }
}

/// The number above a single range with an upper bound.
#[tactic(auto, using(crate::proofs::HeldMembers::only_span, crate::proofs::HeldMembers::other_spans))]
fn above_last(spans: &[Span]) -> Result<Option<i64>, NoMemory>
    ensures { IfOk result (λ o. o ≡ dummy_of (integers (map pure_span spans.now))) }
{
    if spans.len() != 1 {
        return Ok(None);
    }
    match spans[0].high {
        Some(high) => above(high),
        None => Ok(None),
    }
}

/// One more than a number.
fn above(number: i64) -> Result<Option<i64>, NoMemory>
    ensures { IfOk result (λ o. o ≡ Some (number +ℤ pos 1)) }
{
    match number.checked_add(1) {
        Some(next) => Ok(Some(next)),
        None => Err(NoMemory),
    }
}

/// The table of a set in `count` slots with the dummy in those that have no member; no table where there is no dummy. `NoMemory`
/// where there is no room for it.
pub fn dummy_tables(
    alloc: Global,
    count: usize,
    member: &Closed,
    val: &Val,
) -> Result<Row<Table>, NoMemory>
    ensures { IfOk result (λ ts. map pure_table ts ≡ tables_with_dummies count (pure_closed member.now) (pure_val val.now)) }
{
    match dummy(member)? {
        Some(dummy) => {
            let items = items_of(alloc, val)?;
            let codes = filled_with(codes(alloc, items.as_slice())?, count, dummy)?;
            let mut tables = Row::with_capacity(alloc, 1)?;
            tables.push(one_row(alloc, slot_axis(alloc, count)?, codes)?)?;
            Ok(tables)
        }
        None => Ok(Row::new(alloc)),
    }
}

/// The set of the members in slots, whose numbers but the dummy stand for members; nothing where a number stands for none, or where
/// there is no dummy. `NoMemory` where there is no room for it.
#[tactic(auto, using(crate::proofs::HeldMembers::held_set, crate::proofs::HeldMembers::held_none))]
pub fn dummy_value(alloc: Global, member: &Closed, numbers: &[i64]) -> Result<Option<Val>, NoMemory>
    ensures { IfOk result (λ o. option_map pure_val o ≡ and_then (dummy_of (pure_closed member.now)) (λ m. option_map (λ ls. the_set (append_all ls)) (each_of numbers.now (but_dummy (pure_closed member.now) m)))) }
{
    match dummy(member)? {
        Some(dummy) => match members_held(alloc, member, dummy, numbers)? {
            Some(held) => Ok(Some(set_of(alloc, held)?)),
            None => Ok(None),
        },
        None => Ok(None),
    }
}

/// The members that numbers other than the dummy stand for; nothing where one stands for none. `NoMemory` where there is no room
/// for them.
#[tactic(auto, using(crate::proofs::HeldMembers::held_next, crate::proofs::HeldMembers::held_wrong))]
fn members_held(
    alloc: Global,
    member: &Closed,
    dummy: i64,
    numbers: &[i64],
) -> Result<Option<Row<Val>>, NoMemory>
    ensures { IfOk result (λ o. option_map (map pure_val) o ≡ option_map append_all (each_of numbers.now (but_dummy (pure_closed member.now) dummy))) }
{
    let mut held = Row::new(alloc);
    for number in numbers {
        let is_wrong = add_member(alloc, &mut held, member, dummy, *number)?;
        if is_wrong {
            return Ok(None);
        }
    }
    Ok(Some(held))
}

/// Puts the member that a number stands for behind others; nothing for the dummy. Whether the number stands for none. `NoMemory`
/// where there is no room for it.
fn add_member(
    alloc: Global,
    held: &mut Row<Val>,
    member: &Closed,
    dummy: i64,
    number: i64,
) -> Result<bool, NoMemory>
    ensures { IfOk result (λ b. option_map (λ l. map pure_val held.old ++ l) (but_dummy (pure_closed member.now) dummy number) ≡ (if b then None else Some (map pure_val held.new))) }
{
    if dummy == number {
        return Ok(false);
    }
    match atom_value(alloc, member, number)? {
        Some(val) => {
            held.push(val)?;
            Ok(false)
        }
        None => Ok(true),
    }
}
