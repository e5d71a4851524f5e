ghost use Rattle.std.specs.Prelude.{◌≡◌, ◌∷◌, map, IfOk};
ghost use Rattle.ess_core.specs.TableViews.{pure_table};
ghost use Rattle.ess_repr_rows_laws.specs.RowLayers.{slot_tables as tables_of_slots, marked_tables, flagged_slot_tables};
ghost use Rattle.ess_repr_tables.specs.SlotViews.{pure_tables};

use crate::axes::slot_axis;
use crate::parts::{all_used, flags, one_cell, one_row};
use ess_core::{NoMemory, Row, Table};
use ess_repr_tables::{in_order, stacked};
use std::alloc::Global;

/// The tables of `count` slots: those of the slots in use in the order of their rows, then zeros. `axes` are those of one slot's
/// tables. `NoMemory` where there is no room for them.
pub fn slot_tables(
    alloc: Global,
    count: usize,
    axes: &[Row<Row<i64>>],
    inner: Row<Row<Table>>,
) -> Result<Row<Table>, NoMemory>
    ensures { IfOk result (λ ts. map pure_table ts ≡ tables_of_slots count axes.now (map pure_tables inner)) }
{
    let slots = all_used(alloc, in_order(inner)?)?;
    let mut layer_axes = Row::with_capacity(alloc, 1)?;
    layer_axes.push(slot_axis(alloc, count)?)?;
    stacked(alloc, layer_axes.as_slice(), axes, slots.as_slice())
}

/// The same behind a marker, the number of slots in use.
pub fn marked_slots(
    alloc: Global,
    count: usize,
    axes: &[Row<Row<i64>>],
    inner: Row<Row<Table>>,
) -> Result<Row<Table>, NoMemory>
    ensures { IfOk result (λ ts. map pure_table ts ≡ marked_tables count axes.now (map pure_tables inner)) }
{
    match i64::try_from(inner.len()) {
        Ok(used) => with_first(
            alloc,
            one_cell(alloc, used)?,
            slot_tables(alloc, count, axes, inner)?,
        ),
        Err(_) => Err(NoMemory),
    }
}

/// The same behind a flag for each slot.
pub fn flagged_slots(
    alloc: Global,
    count: usize,
    axes: &[Row<Row<i64>>],
    inner: Row<Row<Table>>,
) -> Result<Row<Table>, NoMemory>
    ensures { IfOk result (λ ts. map pure_table ts ≡ flagged_slot_tables count axes.now (map pure_tables inner)) }
{
    let items = flags(alloc, inner.len(), count)?;
    let axis = slot_axis(alloc, count)?;
    with_first(
        alloc,
        one_row(alloc, axis, items)?,
        slot_tables(alloc, count, axes, inner)?,
    )
}

/// A table in front of others. `NoMemory` where there is no room for it.
pub(crate) fn with_first(
    alloc: Global,
    first: Table,
    others: Row<Table>,
) -> Result<Row<Table>, NoMemory>
    ensures { IfOk result (λ ts. ts ≡ first ∷ others) }
{
    let mut tables = Row::new(alloc);
    let mut others = others;
    tables.push(first)?;
    tables.append(&mut others)?;
    Ok(tables)
}
