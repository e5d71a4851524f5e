ghost use Rattle.std.specs.Prelude.{◌≡◌, map, Some, IfOk};
ghost use Rattle.ess_core.specs.TableViews.{pure_table};
ghost use Rattle.ess_repr_rows_laws.specs.SlotOrder.{by_rows};
ghost use Rattle.ess_repr_rows_laws.specs.RowLayers.{counted_rows, counted_tables};
ghost use Rattle.ess_repr_tables.specs.SlotViews.{pure_slots};
ghost use Rattle.ess_repr_slots.specs.CountedViews.{pure_counted};

use crate::axes::slot_axis;
use crate::down::with_first;
use crate::parts::one_row;
use ess_core::{NoMemory, Row, Table};
use ess_repr_tables::{fitted, order_tables, stacked};
use std::alloc::Global;

/// The tables of a slot, and how often its value occurs.
#[derive(Drop)]
pub struct CountedSlot {
    pub times: i64,
    pub tables: Row<Table>,
}

/// The tables of `count` slots with a number for each: slots in use stand in the order of their rows, their numbers with them,
/// and zeros behind. `axes` are those of one slot's tables. `NoMemory` where there is no room for them.
pub fn counted_slots(
    alloc: Global,
    count: usize,
    axes: &[Row<Row<i64>>],
    slots: Row<CountedSlot>,
) -> Result<Row<Table>, NoMemory>
    ensures { IfOk result (λ ts. map pure_table ts ≡ counted_tables count axes.now (map pure_counted slots)) }
{
    let slots = in_counted_order(slots)?;
    let items = fitted(times_of(alloc, slots.as_slice())?, count)?;
    let used = tables_of(alloc, slots)?;
    let mut layer_axes = Row::with_capacity(alloc, 1)?;
    layer_axes.push(slot_axis(alloc, count)?)?;
    with_first(
        alloc,
        one_row(alloc, slot_axis(alloc, count)?, items)?,
        stacked(alloc, layer_axes.as_slice(), axes, used.as_slice())?,
    )
}

/// The slots in the order of their rows; those with the same rows keep their order. `NoMemory` where there is no room to sort them.
fn in_counted_order(slots: Row<CountedSlot>) -> Result<Row<CountedSlot>, NoMemory>
    ensures { IfOk result (λ r. map pure_counted r ≡ by_rows counted_rows (map pure_counted slots)) }
{
    let mut slots = slots.into_vec();
    slots.sort_by(|a, b| order_tables(a.tables.as_slice(), b.tables.as_slice()))?;
    Ok(Row::from_vec(slots))
}

/// How often the value of each slot occurs. `NoMemory` where there is no room for the numbers.
#[tactic(auto, using(crate::proofs::CountedLoops::times_more))]
fn times_of(alloc: Global, slots: &[CountedSlot]) -> Result<Row<i64>, NoMemory>
    ensures { IfOk result (λ r. r ≡ map (λ c. c.0) (map pure_counted slots.now)) }
{
    let mut times = Row::with_capacity(alloc, slots.len())?;
    for slot in slots {
        times.push(slot.times)?;
    }
    Ok(times)
}

/// The tables of slots that are all in use. `NoMemory` where there is no room for them.
#[tactic(auto, using(std::proofs::lemmas::List::map_push))]
fn tables_of(alloc: Global, slots: Row<CountedSlot>) -> Result<Row<Option<Row<Table>>>, NoMemory>
    ensures { IfOk result (λ r. pure_slots r ≡ map (λ c. Some c.1) (map pure_counted slots)) }
{
    let mut used = Row::with_capacity(alloc, slots.len())?;
    for slot in slots.into_vec() {
        let CountedSlot { times: _, tables } = slot;
        used.push(Some(tables))?;
    }
    Ok(used)
}
