ghost use Rattle.std.specs.Prelude.{◌≡◌, ◌&&◌, Some, None, map, drop as dropped, option_map, pos, int_le, IfOk};
ghost use Rattle.std.specs.List.{list_all};
ghost use Rattle.ess_semantics.specs.Lists.{and_then, only_of};
ghost use Rattle.ess_semantics.specs.Order.{same_int};
ghost use Rattle.ess_semantics.specs.Collections.{set_of as the_set};
ghost use Rattle.ess_semantics.specs.Domains.{member_list as list_of_members};
ghost use Rattle.ess_semantics.specs.Tables.{truth_number};
ghost use Rattle.ess_semantics.specs.PartitionLayers.{members_numbered, partition_from_numbers};
ghost use Rattle.ess_core.specs.ValueViews.{pure_val};
ghost use Rattle.ess_eval_domains.specs.ClosedViews.{pure_closed};
ghost use Rattle.ess_repr_rows_laws.specs.Cutting.{first_items as items_of_first};
ghost use Rattle.ess_repr_tables.specs.SlotViews.{pure_tables};

use ess_core::{NoMemory, Row, Table, Val};
use ess_eval_domains::Closed;
use ess_eval_operators::partition_value;
use ess_repr_sets::{first_items, member_list, picked};
use ess_repr_slots::slot_axis;
use ess_values::set_of;
use std::alloc::Global;

/// The partition of the members by the number of parts and the numbers of their parts, the only item of the first table and the items
/// of the second one. Nothing where a number is none of these, or a part has no member. `NoMemory` where there is no room for it.
#[tactic(auto, using(crate::proofs::NumberedMembers::one_number, crate::proofs::NumberedMembers::no_number))]
pub fn numbered_partition(
    alloc: Global,
    member: &Closed,
    tables: &[Table],
) -> Result<Option<Val>, NoMemory>
    ensures { IfOk result (λ o. option_map pure_val o ≡ and_then (only_of (items_of_first (pure_tables tables.now)))
        (partition_from_numbers (list_of_members (pure_closed member.now)) (items_of_first (dropped 1 (pure_tables tables.now))))) }
{
    let counts = first_items(tables);
    if counts.len() != 1 {
        return Ok(None);
    }
    let members = member_list(alloc, member)?;
    partition_by(
        alloc,
        members.as_slice(),
        first_items(other_tables(tables)),
        counts[0],
    )
}

/// All tables but the first.
#[tactic(auto, using(crate::proofs::NumberedMembers::others_are, crate::proofs::NumberedMembers::others_none))]
fn other_tables(tables: &[Table]) -> &[Table]
    ensures { pure_tables result.now ≡ dropped 1 (pure_tables tables.now) }
{
    if tables.len() == 0 {
        return tables;
    }
    &tables[1..]
}

/// The partition of the members whose parts have the numbers up to a count.
#[tactic(auto, using(crate::proofs::NumberedMembers::parts_below))]
fn partition_by(
    alloc: Global,
    members: &[Val],
    numbers: &[i64],
    count: i64,
) -> Result<Option<Val>, NoMemory>
    ensures { IfOk result (λ o. option_map pure_val o ≡ partition_from_numbers (map pure_val members.now) numbers.now count) }
{
    match usize::try_from(count) {
        Ok(parts) => {
            if !are_part_numbers(numbers, count) {
                return Ok(None);
            }
            let axis = slot_axis(alloc, parts)?;
            let sets = parts_numbered(alloc, members, numbers, axis.as_slice())?;
            Ok(partition_value(alloc, sets)?)
        }
        Err(_) => Ok(None),
    }
}

/// Whether each number is one from 1 to the count.
fn are_part_numbers(numbers: &[i64], count: i64) -> bool
    ensures { result ≡ list_all (λ w. int_le (pos 1) w && int_le w count) numbers.now }
{
    for number in numbers {
        if !is_part_number(*number, count) {
            return false;
        }
    }
    true
}

/// Whether a number is one from 1 to the count.
fn is_part_number(number: i64, count: i64) -> bool
    ensures { result ≡ int_le (pos 1) number && int_le number count }
{
    1 <= number && number <= count
}

/// The set of the members of each of these numbers. `NoMemory` where there is no room for them.
#[tactic(auto, using(crate::proofs::NumberedMembers::sets_more))]
fn parts_numbered(
    alloc: Global,
    members: &[Val],
    numbers: &[i64],
    axis: &[i64],
) -> Result<Row<Option<Val>>, NoMemory>
    ensures { IfOk result (λ r. map (option_map pure_val) r ≡
        map (λ k. Some (the_set (members_numbered (map pure_val members.now) numbers.now k))) axis.now) }
{
    let mut parts = Row::with_capacity(alloc, axis.len())?;
    for number in axis {
        parts.push(Some(part_numbered(alloc, members, numbers, *number)?))?;
    }
    Ok(parts)
}

/// The set of the members with a number. `NoMemory` where there is no room for it.
fn part_numbered(
    alloc: Global,
    members: &[Val],
    numbers: &[i64],
    number: i64,
) -> Result<Val, NoMemory>
    ensures { IfOk result (λ v. pure_val v ≡ the_set (members_numbered (map pure_val members.now) numbers.now number)) }
{
    let marks = marks(alloc, numbers, number)?;
    match picked(alloc, marks.as_slice(), members)? {
        Some(own) => Ok(set_of(alloc, own)?),
        None => Err(NoMemory),
    }
}

/// Of each number whether it is this one, as 1 or 0. `NoMemory` where there is no room for them.
fn marks(alloc: Global, numbers: &[i64], number: i64) -> Result<Row<i64>, NoMemory>
    ensures { IfOk result (λ r. r ≡ map (λ w. truth_number (same_int w number)) numbers.now) }
{
    let mut marks = Row::with_capacity(alloc, numbers.len())?;
    for own in numbers {
        marks.push(mark(*own, number))?;
    }
    Ok(marks)
}

/// 1 where two numbers are equal, else 0.
fn mark(own: i64, number: i64) -> i64
    ensures { result ≡ truth_number (same_int own number) }
{
    if own == number { 1 } else { 0 }
}
