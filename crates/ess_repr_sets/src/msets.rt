ghost use Rattle.std.specs.Prelude.{◌≡◌, [], ◌∷◌, ◌++◌, List, map, option_map, IfOk, OnOk};
ghost use Rattle.ess_semantics.specs.Lists.{zip};
ghost use Rattle.ess_semantics.specs.Values.{a_mset, node, of_list, items_of as the_items};
ghost use Rattle.ess_semantics.specs.Collections.{mset_of as the_mset, sorted_once};
ghost use Rattle.ess_semantics.specs.Domains.{member_list as list_of_members};
ghost use Rattle.ess_semantics.specs.Tables.{Tables, row_of};
ghost use Rattle.ess_semantics.specs.Layers.{codes_of, each_repeated as repeated_each, repeated as repeated_used};
ghost use Rattle.ess_semantics.specs.MultisetLayers.{occurs};
ghost use Rattle.ess_core.specs.ValueViews.{pure_val};
ghost use Rattle.ess_core.specs.TableViews.{pure_table};
ghost use Rattle.ess_eval_domains.specs.ClosedViews.{pure_closed};
ghost use Rattle.ess_repr_rows_laws.specs.RowLayers.{times_of};
ghost use Rattle.ess_repr_tables.specs.SlotViews.{pure_tables};
ghost use Rattle.ess_repr_slots.specs.CountedViews.{pure_counted};

use crate::atoms::codes;
use crate::repeats::{each_repeated, repeated};
use crate::sets::member_list;
use crate::times::counts;
use ess_core::{NoMemory, Row, Table, Val};
use ess_eval_domains::Closed;
use ess_eval_operators::items_of;
use ess_repr_slots::{CountedSlot, one_row};
use ess_values::{mset_of, set_of};
use std::alloc::Global;

/// The table of a multiset by how often the members of its inner domain occur. `NoMemory` where there is no room for it.
pub fn count_tables(alloc: Global, member: &Closed, val: &Val) -> Result<Row<Table>, NoMemory>
    ensures { IfOk result (λ ts. map pure_table ts ≡ row_of (codes_of (pure_closed member.now)) (map (occurs (pure_val val.now)) (list_of_members (pure_closed member.now))) ∷ []) }
{
    let members = member_list(alloc, member)?;
    let items = items_of(alloc, val)?;
    let axis = codes(alloc, members.as_slice())?;
    let counts = counts(alloc, members.as_slice(), items.as_slice())?;
    let mut tables = Row::with_capacity(alloc, 1)?;
    tables.push(one_row(alloc, axis, counts)?)?;
    Ok(tables)
}

/// The multiset of the members, each as often as its number says; nothing where a number is below 0. `NoMemory` where there is no
/// room for it.
#[tactic(auto, using(ess_core::proofs::ValueEquations::pure_mset, crate::proofs::CountedTables::counts_there, crate::proofs::CountedTables::counts_none))]
pub fn counts_mset(alloc: Global, member: &Closed, numbers: &[i64]) -> Result<Option<Val>, NoMemory>
    ensures { IfOk result (λ o. option_map pure_val o ≡ option_map (λ ns. node a_mset (of_list (repeated_each ns (list_of_members (pure_closed member.now))))) (times_of numbers.now)) }
{
    let members = member_list(alloc, member)?;
    match each_repeated(alloc, numbers, members.as_slice())? {
        Some(all) => Ok(Some(Val::MSet(all))),
        None => Ok(None),
    }
}

/// The multiset of the values in the slots in use, each as often as the number of its slot says; nothing where a number is below 0.
/// `NoMemory` where there is no room for it.
#[tactic(auto, using(crate::proofs::CountedTables::counted_there, crate::proofs::CountedTables::counted_none))]
pub fn counted_mset(alloc: Global, numbers: &[i64], vals: Row<Val>) -> Result<Option<Val>, NoMemory>
    ensures { IfOk result (λ o. option_map pure_val o ≡ option_map (λ ns. the_mset (repeated_used ns (map pure_val vals))) (times_of numbers.now)) }
{
    match repeated(alloc, numbers, vals.as_slice())? {
        Some(all) => Ok(Some(mset_of(alloc, all)?)),
        None => Ok(None),
    }
}

/// The different members of a value, rising. `NoMemory` where there is no room for them.
#[tactic(auto, using(ess_eval_operators::proofs::SortedMembers::set_sorted))]
pub fn distinct(alloc: Global, val: &Val) -> Result<Row<Val>, NoMemory>
    ensures { IfOk result (λ r. map pure_val r ≡ sorted_once (the_items (pure_val val.now))) }
{
    match set_of(alloc, items_of(alloc, val)?)? {
        Val::Set(members) => Ok(members),
        other => {
            drop(other);
            Err(NoMemory)
        }
    }
}

/// The tables of the different members of a multiset with how often each occurs. `NoMemory` where there is no room for them.
pub fn slots_with_times(
    alloc: Global,
    val: &Val,
    inner: Row<Row<Table>>,
) -> Result<Row<CountedSlot>, NoMemory>
    ensures { IfOk result (λ r. map pure_counted r ≡ zip (map (occurs (pure_val val.now)) (sorted_once (the_items (pure_val val.now)))) (map pure_tables inner)) }
{
    let members = distinct(alloc, val)?;
    let items = items_of(alloc, val)?;
    let times = counts(alloc, members.as_slice(), items.as_slice())?;
    with_times(alloc, times.as_slice(), inner)
}

/// Tables with numbers, side by side as far as both go. `NoMemory` where there is no room for them.
#[tactic(auto, using(std::proofs::lemmas::List::map_push, crate::proofs::CountedTables::zip_start))]
fn with_times(
    alloc: Global,
    times: &[i64],
    inner: Row<Row<Table>>,
) -> Result<Row<CountedSlot>, NoMemory>
    ensures { IfOk result (λ r. map pure_counted r ≡ zip times.now (map pure_tables inner)) }
{
    let mut slots = Row::with_capacity(alloc, inner.len())?;
    for tables in inner.into_vec() {
        add_slot(&mut slots, times, tables)?;
    }
    Ok(slots)
}

/// Puts tables with the number of their place behind others; nothing where there is no such number. `NoMemory` where there is no
/// room for them.
#[tactic(auto, using(crate::proofs::CountedTables::zip_more, crate::proofs::CountedTables::zip_full))]
fn add_slot(slots: &mut Row<CountedSlot>, times: &[i64], tables: Row<Table>) -> Result<(), NoMemory>
    ensures { OnOk result ((tss : List Tables) → map pure_counted slots.old ≡ zip times.now tss → map pure_counted slots.new ≡ zip times.now (tss ++ map pure_table tables ∷ [])) }
{
    let place = slots.len();
    if place < times.len() {
        slots.push(with_number(times[place], tables))?;
    }
    Ok(())
}

/// Tables with a number.
fn with_number(times: i64, tables: Row<Table>) -> CountedSlot
    ensures { pure_counted result ≡ (times, map pure_table tables) }
{
    CountedSlot { times, tables }
}
