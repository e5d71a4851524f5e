ghost use Rattle.std.specs.Prelude.{◌≡◌, [], ◌∷◌, map, replicate, pos, IfOk};
ghost use Rattle.ess_semantics.specs.Tables.{one_cell as cell_alone, row_of};
ghost use Rattle.ess_core.specs.TableViews.{pure_table};
ghost use Rattle.ess_repr_rows_laws.specs.Stacking.{fitted as fitted_to};
ghost use Rattle.ess_repr_rows_laws.specs.RowLayers.{all_used as all_slots_used};
ghost use Rattle.ess_repr_tables.specs.SlotViews.{pure_tables, pure_slots};

use ess_core::{NoMemory, Row, Table};
use ess_repr_tables::fitted;
use std::alloc::Global;

/// A table with one item. `NoMemory` where there is no room for it.
pub fn one_cell(alloc: Global, item: i64) -> Result<Table, NoMemory>
    ensures { IfOk result (λ t. pure_table t ≡ cell_alone item) }
{
    let mut items = Row::with_capacity(alloc, 1)?;
    items.push(item)?;
    Ok(Table {
        axes: Row::new(alloc),
        items,
    })
}

/// A table with one axis. `NoMemory` where there is no room for it.
pub fn one_row(alloc: Global, axis: Row<i64>, items: Row<i64>) -> Result<Table, NoMemory>
    ensures { IfOk result (λ t. pure_table t ≡ row_of axis items) }
{
    let mut axes = Row::with_capacity(alloc, 1)?;
    axes.push(axis)?;
    Ok(Table { axes, items })
}

/// Slots that are all in use. `NoMemory` where there is no room for them.
#[tactic(auto, using(std::proofs::lemmas::List::map_push))]
pub fn all_used(alloc: Global, slots: Row<Row<Table>>) -> Result<Row<Option<Row<Table>>>, NoMemory>
    ensures { IfOk result (λ r. pure_slots r ≡ all_slots_used (map pure_tables slots)) }
{
    let mut used = Row::with_capacity(alloc, slots.len())?;
    for slot in slots.into_vec() {
        used.push(Some(slot))?;
    }
    Ok(used)
}

/// The flags of slots of which the first ones are in use. `NoMemory` where there is no room for them.
pub fn flags(alloc: Global, used: usize, count: usize) -> Result<Row<i64>, NoMemory>
    ensures { IfOk result (λ r. r ≡ fitted_to count (replicate used (pos 1))) }
{
    fitted(ones(alloc, used)?, count)
}

/// So many ones. `NoMemory` where there is no room for them.
#[tactic(auto, using(crate::proofs::SlotLoops::ones_more))]
fn ones(alloc: Global, count: usize) -> Result<Row<i64>, NoMemory>
    ensures { IfOk result (λ r. r ≡ replicate count (pos 1)) }
{
    let mut ones = Row::with_capacity(alloc, count)?;
    for k in 0..count {
        ones.push(1)?;
    }
    Ok(ones)
}
