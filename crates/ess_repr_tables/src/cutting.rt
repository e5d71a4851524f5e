ghost use Rattle.std.specs.Prelude.{◌≡◌, ◌*◌, map, take, drop, IfOk};
ghost use Rattle.ess_core.specs.TableViews.{pure_table};
ghost use Rattle.ess_repr_rows_laws.specs.Cutting.{part_at as part_of_table, parts_at as parts_of_tables};
ghost use Rattle.ess_repr_tables.specs.SlotViews.{pure_tables};

use crate::stacking::add_axes;
use crate::volumes::volume;
use ess_core::{NoMemory, Row, Table};
use std::alloc::Global;

/// The tables of the slots with these numbers, behind so many axes. `NoMemory` where there is no room for them.
#[tactic(auto, using(std::proofs::lemmas::List::map_more))]
pub fn slots_at(
    alloc: Global,
    axes: usize,
    tables: &[Table],
    numbers: &[usize],
) -> Result<Row<Row<Table>>, NoMemory>
    ensures { IfOk result (λ r. map pure_tables r ≡ map (parts_of_tables axes (pure_tables tables.now)) numbers.now) }
{
    let mut slots = Row::with_capacity(alloc, numbers.len())?;
    for number in numbers {
        slots.push(parts_at(alloc, axes, tables, *number)?)?;
    }
    Ok(slots)
}

/// The tables of the slot with so many slots before it, behind so many axes. `NoMemory` where there is no room for them.
#[tactic(auto, using(crate::proofs::UsedNumbers::parts_more))]
pub fn parts_at(
    alloc: Global,
    axes: usize,
    tables: &[Table],
    number: usize,
) -> Result<Row<Table>, NoMemory>
    ensures { IfOk result (λ r. map pure_table r ≡ parts_of_tables axes (pure_tables tables.now) number) }
{
    let mut parts = Row::with_capacity(alloc, tables.len())?;
    for table in tables {
        parts.push(part_at(alloc, axes, table, number)?)?;
    }
    Ok(parts)
}

/// The part of a table at the slot with so many slots before it, behind so many axes. `NoMemory` where there is no room for it.
fn part_at(alloc: Global, axes: usize, table: &Table, number: usize) -> Result<Table, NoMemory>
    ensures { IfOk result (λ t. pure_table t ≡ part_of_table axes number (pure_table table.now)) }
{
    let own = axes_behind(alloc, axes, table.axes.as_slice())?;
    let count = volume(own.as_slice())?;
    let items = part_of(alloc, table.items.as_slice(), number, count)?;
    Ok(Table { axes: own, items })
}

/// The axes behind the first ones.
fn axes_behind(alloc: Global, count: usize, axes: &[Row<i64>]) -> Result<Row<Row<i64>>, NoMemory>
    ensures { IfOk result (λ r. r ≡ drop count axes.now) }
{
    let mut own = Row::new(alloc);
    if count < axes.len() {
        add_axes(alloc, &mut own, &axes[count..])?;
    }
    Ok(own)
}

/// The part with so many parts of `count` items each before it.
fn part_of(alloc: Global, items: &[i64], number: usize, count: usize) -> Result<Row<i64>, NoMemory>
    ensures { IfOk result (λ r. r ≡ take count (drop (number * count) items.now)) }
{
    let start = match number.checked_mul(count) {
        Some(start) => start,
        None => return Err(NoMemory),
    };
    if start >= items.len() {
        return Ok(Row::new(alloc));
    }
    let rest = &items[start..];
    let count = if count < rest.len() {
        count
    } else {
        rest.len()
    };
    Row::from_slice(alloc, &rest[..count])
}
