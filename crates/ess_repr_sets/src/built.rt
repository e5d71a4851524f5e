ghost use Rattle.std.specs.Prelude.{◌≡◌, map, option_map, IfOk};
ghost use Rattle.ess_semantics.specs.Collections.{set_of as the_set, mset_of as the_mset};
ghost use Rattle.ess_core.specs.ValueViews.{pure_val};
ghost use Rattle.ess_repr_rows_laws.specs.Cutting.{first_items as items_of_first, used_numbers as numbers_used};
ghost use Rattle.ess_repr_tables.specs.SlotViews.{pure_tables};
ghost use Rattle.ess_repr_tables.specs.UseViews.{pure_use};

use ess_core::{NoMemory, Row, Table, Val};
use ess_repr_tables::{SlotsInUse, used_numbers};
use ess_values::{mset_of, set_of};
use std::alloc::Global;

/// The set of the values of the slots in use, of `count` slots; nothing where the layer's own tables stand for nothing. `NoMemory`
/// where there is no room for it.
pub fn set_in_slots(
    alloc: Global,
    slots: SlotsInUse,
    count: usize,
    own: &[Table],
    vals: Row<Val>,
) -> Result<Option<Val>, NoMemory>
    ensures { IfOk result (λ o. option_map pure_val o ≡ option_map (λ ns. the_set (map pure_val vals)) (numbers_used (pure_use slots) count (pure_tables own.now))) }
{
    match used_numbers(alloc, slots, count, own)? {
        Some(_) => Ok(Some(set_of(alloc, vals)?)),
        None => Ok(None),
    }
}

/// The multiset of the values of the slots in use, of `count` slots; nothing where the layer's own tables stand for nothing.
/// `NoMemory` where there is no room for it.
pub fn mset_in_slots(
    alloc: Global,
    slots: SlotsInUse,
    count: usize,
    own: &[Table],
    vals: Row<Val>,
) -> Result<Option<Val>, NoMemory>
    ensures { IfOk result (λ o. option_map pure_val o ≡ option_map (λ ns. the_mset (map pure_val vals)) (numbers_used (pure_use slots) count (pure_tables own.now))) }
{
    match used_numbers(alloc, slots, count, own)? {
        Some(_) => Ok(Some(mset_of(alloc, vals)?)),
        None => Ok(None),
    }
}

/// The items of the first table; none where there is no table.
pub fn first_items(tables: &[Table]) -> &[i64]
    ensures { result.now ≡ items_of_first (pure_tables tables.now) }
{
    if tables.len() == 0 {
        return &[];
    }
    tables[0].items.as_slice()
}
