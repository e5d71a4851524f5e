ghost use Rattle.std.specs.Prelude.{◌≡◌, ◌++◌, map, option_map, IfOk, OnOk};
ghost use Rattle.ess_semantics.specs.Tables.{volume as volume_of};
ghost use Rattle.ess_core.specs.TableViews.{pure_table};
ghost use Rattle.ess_repr_rows_laws.specs.Stacking.{zeros, fitted as fitted_to, items_of_table, slot_items, items_in_turn as all_items, stacked_table as table_stacked, stacked as tables_stacked};
ghost use Rattle.ess_repr_tables.specs.SlotViews.{pure_tables, pure_slots};

use crate::volumes::volume;
use ess_core::{NoMemory, Row, Table};
use std::alloc::Global;

/// The tables of all slots under a layer's axes. `slots` holds the tables of the slots in their places, where slots out of use
/// have none; those that are left out at the end are out of use too. `NoMemory` where there is no room for the items.
pub fn stacked(
    alloc: Global,
    layer_axes: &[Row<i64>],
    axes: &[Row<Row<i64>>],
    slots: &[Option<Row<Table>>],
) -> Result<Row<Table>, NoMemory>
    ensures { IfOk result (λ ts. map pure_table ts ≡ tables_stacked layer_axes.now axes.now (pure_slots slots.now)) }
{
    let mut tables = Row::with_capacity(alloc, axes.len())?;
    for (number, own) in axes.iter().enumerate() {
        tables.push(stacked_table(alloc, layer_axes, number, own, slots)?)?;
    }
    Ok(tables)
}

/// The table over the layer's axes and the slots' axes.
fn stacked_table(
    alloc: Global,
    layer_axes: &[Row<i64>],
    number: usize,
    axes: &Row<Row<i64>>,
    slots: &[Option<Row<Table>>],
) -> Result<Table, NoMemory>
    ensures { IfOk result (λ t. pure_table t ≡ table_stacked layer_axes.now number axes.now (pure_slots slots.now)) }
{
    let all_axes = both_axes(alloc, layer_axes, axes.as_slice())?;
    let count = volume(all_axes.as_slice())?;
    let items = items_in_turn(alloc, number, axes.as_slice(), slots)?;
    let items = fitted(items, count)?;
    Ok(Table {
        axes: all_axes,
        items,
    })
}

/// Axes behind others.
fn both_axes(
    alloc: Global,
    first: &[Row<i64>],
    second: &[Row<i64>],
) -> Result<Row<Row<i64>>, NoMemory>
    ensures { IfOk result (λ r. r ≡ first.now ++ second.now) }
{
    let mut axes = Row::new(alloc);
    add_axes(alloc, &mut axes, first)?;
    add_axes(alloc, &mut axes, second)?;
    Ok(axes)
}

/// Puts copies of axes behind others. `NoMemory` where there is no room for them.
pub(crate) fn add_axes(
    alloc: Global,
    all: &mut Row<Row<i64>>,
    axes: &[Row<i64>],
) -> Result<(), NoMemory>
    ensures { OnOk result (all.new ≡ all.old ++ axes.now) }
{
    for axis in axes {
        all.push(Row::from_slice(alloc, axis.as_slice())?)?;
    }
    Ok(())
}

/// The items of the slots in the table with so many tables before it, one slot behind the other.
#[tactic(auto, using(crate::proofs::StackedTables::turn_more))]
fn items_in_turn(
    alloc: Global,
    number: usize,
    axes: &[Row<i64>],
    slots: &[Option<Row<Table>>],
) -> Result<Row<i64>, NoMemory>
    ensures { IfOk result (λ r. r ≡ all_items number (volume_of axes.now) (pure_slots slots.now)) }
{
    let mut items = Row::new(alloc);
    for slot in slots {
        add_slot(alloc, &mut items, number, axes, slot)?;
    }
    Ok(items)
}

/// Puts the items of a slot in the table with so many tables before it behind others.
fn add_slot(
    alloc: Global,
    items: &mut Row<i64>,
    number: usize,
    axes: &[Row<i64>],
    slot: &Option<Row<Table>>,
) -> Result<(), NoMemory>
    ensures { OnOk result (items.new ≡ items.old ++ slot_items number (volume_of axes.now) (option_map pure_tables slot.now)) }
{
    match slot {
        Some(tables) => add_items(alloc, items, tables.as_slice(), number),
        None => add_zeros(items, volume(axes)?),
    }
}

/// Puts the items of the table with so many tables before it behind others; none where there is no such table.
#[tactic(auto, using(crate::proofs::StackedTables::items_there, crate::proofs::StackedTables::items_none))]
fn add_items(
    alloc: Global,
    items: &mut Row<i64>,
    tables: &[Table],
    number: usize,
) -> Result<(), NoMemory>
    ensures { OnOk result (items.new ≡ items.old ++ items_of_table number (pure_tables tables.now)) }
{
    if number < tables.len() {
        let mut copy = Row::from_slice(alloc, tables[number].items.as_slice())?;
        items.append(&mut copy)
    } else {
        Ok(())
    }
}

/// Puts so many zeros behind the items. `NoMemory` where there is no room for them.
pub fn add_zeros(items: &mut Row<i64>, count: usize) -> Result<(), NoMemory>
    ensures { OnOk result (items.new ≡ items.old ++ zeros count) }
{
    for k in 0..count {
        items.push(0)?;
    }
    Ok(())
}

/// Exactly so many items: the first ones, and zeros where there are fewer. `NoMemory` where there is no room for them.
pub fn fitted(items: Row<i64>, count: usize) -> Result<Row<i64>, NoMemory>
    ensures { IfOk result (λ r. r ≡ fitted_to count items) }
{
    let mut items = items;
    let missing = count.saturating_sub(items.len());
    items.truncate(count);
    add_zeros(&mut items, missing)?;
    Ok(items)
}
