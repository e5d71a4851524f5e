//! Copies of tables.
ghost use Rattle.std.specs.Prelude.{◌≡◌, ◌++◌, take, IfOk};
ghost use Rattle.ess_core.specs.TableViews.{pure_table};

use ess_core::{NoMemory, Row, Table};
use std::alloc::Global;

/// A copy of a table. `NoMemory` where there is no room for it.
pub(crate) fn copy_table(alloc: Global, table: &Table) -> Result<Table, NoMemory>
    ensures { IfOk result (λ t. pure_table t ≡ pure_table table.now) }
{
    let axes = copy_axes(alloc, table.axes.as_slice())?;
    let items = Row::from_slice(alloc, table.items.as_slice())?;
    Ok(Table { axes, items })
}

/// Copies of axes.
fn copy_axes(alloc: Global, axes: &[Row<i64>]) -> Result<Row<Row<i64>>, NoMemory>
    ensures { IfOk result (λ r. r ≡ axes.now) }
{
    let mut copies = Row::with_capacity(alloc, axes.len())?;
    for axis in axes {
        copies.push(Row::from_slice(alloc, axis.as_slice())?)?;
    }
    Ok(copies)
}
