ghost use Rattle.std.specs.Prelude.{◌≡◌, ◌++◌, IfOk, OnOk};
ghost use Rattle.ess_semantics.specs.Layers.{up_to_marker};
ghost use Rattle.ess_repr_rows_laws.specs.Cutting.{numbers_from, flagged_from, counted_from, first_items as items_of_first, used_numbers as numbers_used};
ghost use Rattle.ess_core.specs.TableViews.{pure_table};
ghost use Rattle.ess_repr_tables.specs.SlotViews.{pure_tables};
ghost use Rattle.ess_repr_tables.specs.UseViews.{pure_use, marked_numbers};

use ess_core::{NoMemory, Row, Table};
use std::alloc::Global;

/// Which slots are in use: all, those up to a marker, those whose flag is true, those whose number is above 0.
#[derive(Clone, Copy)]
pub enum SlotsInUse {
    All,
    UpToMarker,
    Flagged,
    Counted,
}

/// The numbers of the slots in use, of `count` slots, counted from 0, by the layer's own tables; nothing where these stand for
/// nothing. `NoMemory` where there is no room for them.
pub fn used_numbers(
    alloc: Global,
    slots: SlotsInUse,
    count: usize,
    own: &[Table],
) -> Result<Option<Row<usize>>, NoMemory>
    ensures { IfOk result (λ o. o ≡ numbers_used (pure_use slots) count (pure_tables own.now)) }
{
    match slots {
        SlotsInUse::All => Ok(Some(numbers_to(alloc, count)?)),
        SlotsInUse::UpToMarker => marked(alloc, first_items(own), count),
        SlotsInUse::Flagged => flagged(alloc, first_items(own)),
        SlotsInUse::Counted => counted(alloc, first_items(own)),
    }
}

/// The items of the first table; none where there is no table.
fn first_items(own: &[Table]) -> &[i64]
    ensures { result.now ≡ items_of_first (pure_tables own.now) }
{
    if own.len() == 0 {
        return &[];
    }
    own[0].items.as_slice()
}

/// The numbers below the count, rising. `NoMemory` where there is no room for them.
#[tactic(auto, using(crate::proofs::UsedNumbers::numbers_more))]
fn numbers_to(alloc: Global, count: usize) -> Result<Row<usize>, NoMemory>
    ensures { IfOk result (λ r. r ≡ numbers_from 0 count) }
{
    let mut numbers = Row::with_capacity(alloc, count)?;
    for k in 0..count {
        numbers.push(k)?;
    }
    Ok(numbers)
}

/// The numbers below a marker, which is the only item; nothing where it isn't one, or above the count or below 0.
fn marked(alloc: Global, items: &[i64], count: usize) -> Result<Option<Row<usize>>, NoMemory>
    ensures { IfOk result (λ o. o ≡ marked_numbers items.now count) }
{
    if items.len() != 1 {
        return Ok(None);
    }
    match usize::try_from(items[0]) {
        Ok(marker) => {
            if marker <= count {
                Ok(Some(numbers_to(alloc, marker)?))
            } else {
                Ok(None)
            }
        }
        Err(_) => Ok(None),
    }
}

/// The numbers of the flags that are true; nothing where one is no truth value. `NoMemory` where there is no room for them.
fn flagged(alloc: Global, flags: &[i64]) -> Result<Option<Row<usize>>, NoMemory>
    ensures { IfOk result (λ o. o ≡ flagged_from 0 flags.now) }
{
    let mut numbers = Row::new(alloc);
    for (k, flag) in flags.iter().enumerate() {
        match *flag {
            0 => {}
            1 => numbers.push(k)?,
            _ => return Ok(None),
        }
    }
    Ok(Some(numbers))
}

/// The numbers of the items above 0; nothing where one is below 0. `NoMemory` where there is no room for them.
fn counted(alloc: Global, counts: &[i64]) -> Result<Option<Row<usize>>, NoMemory>
    ensures { IfOk result (λ o. o ≡ counted_from 0 counts.now) }
{
    let mut numbers = Row::new(alloc);
    for (k, count) in counts.iter().enumerate() {
        if *count < 0 {
            return Ok(None);
        }
        if *count > 0 {
            numbers.push(k)?;
        }
    }
    Ok(Some(numbers))
}
