ghost use Rattle.std.specs.Prelude.{◌≡◌, map, option_map, IfOk};
ghost use Rattle.ess_repr_rows_laws.specs.Cutting.{parts_at, used_numbers as numbers_used};
ghost use Rattle.ess_repr_tables.specs.SlotViews.{pure_tables};
ghost use Rattle.ess_repr_tables.specs.UseViews.{pure_use};

use ess_core::{NoMemory, Row, Table};
use ess_repr_tables::{SlotsInUse, slots_at, used_numbers};
use std::alloc::Global;

/// The tables of the slots in use, of `count` slots behind so many axes: `own` are the layer's own tables, `inner` those of its
/// child. Nothing where the own tables stand for nothing. `NoMemory` where there is no room for them.
pub fn slots_in_use(
    alloc: Global,
    slots: SlotsInUse,
    axes: usize,
    count: usize,
    own: &[Table],
    inner: &[Table],
) -> Result<Option<Row<Row<Table>>>, NoMemory>
    ensures { IfOk result (λ o. option_map (map pure_tables) o ≡ option_map (map (parts_at axes (pure_tables inner.now))) (numbers_used (pure_use slots) count (pure_tables own.now))) }
{
    match used_numbers(alloc, slots, count, own)? {
        Some(numbers) => Ok(Some(slots_at(alloc, axes, inner, numbers.as_slice())?)),
        None => Ok(None),
    }
}
