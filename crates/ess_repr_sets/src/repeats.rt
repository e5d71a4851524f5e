ghost use Rattle.std.specs.Prelude.{◌≡◌, ◌++◌, ◌∷◌, [], map, filter, option_map, replicate, nat_le, IfOk, OnOk};
ghost use Rattle.ess_semantics.specs.Layers.{each_repeated as repeated_each, repeated as repeated_used};
ghost use Rattle.ess_core.specs.ValueViews.{pure_val};
ghost use Rattle.ess_repr_rows_laws.specs.RowLayers.{times_of};

use crate::members::add_copy;
use ess_core::{NoMemory, Row, Val};
use std::alloc::Global;

/// Copies of the values, each as often as its number says, side by side as far as both go; nothing where a number is below 0.
/// `NoMemory` where there is no room for them.
pub fn each_repeated(
    alloc: Global,
    counts: &[i64],
    vals: &[Val],
) -> Result<Option<Row<Val>>, NoMemory>
    ensures { IfOk result (λ o. option_map (map pure_val) o ≡ option_map (λ ns. repeated_each ns (map pure_val vals.now)) (times_of counts.now)) }
{
    match all_times(alloc, counts)? {
        Some(times) => Ok(Some(all_copies(alloc, times.as_slice(), vals)?)),
        None => Ok(None),
    }
}

/// Copies of the values, each as often as the next number above 0 says; nothing where a number is below 0. `NoMemory` where there
/// is no room for them.
#[tactic(auto, using(crate::proofs::RepeatedValues::used_repeated))]
pub fn repeated(alloc: Global, counts: &[i64], vals: &[Val]) -> Result<Option<Row<Val>>, NoMemory>
    ensures { IfOk result (λ o. option_map (map pure_val) o ≡ option_map (λ ns. repeated_used ns (map pure_val vals.now)) (times_of counts.now)) }
{
    match all_times(alloc, counts)? {
        Some(times) => {
            let used = above_zero(alloc, times.as_slice())?;
            Ok(Some(all_copies(alloc, used.as_slice(), vals)?))
        }
        None => Ok(None),
    }
}

/// The numbers, where none is below 0. `NoMemory` where there is no room for them.
fn all_times(alloc: Global, counts: &[i64]) -> Result<Option<Row<usize>>, NoMemory>
    ensures { IfOk result (λ o. o ≡ times_of counts.now) }
{
    let mut times = Row::with_capacity(alloc, counts.len())?;
    for count in counts {
        match usize::try_from(*count) {
            Ok(number) => times.push(number)?,
            Err(_) => return Ok(None),
        }
    }
    Ok(Some(times))
}

/// The numbers above 0. `NoMemory` where there is no room for them.
fn above_zero(alloc: Global, times: &[usize]) -> Result<Row<usize>, NoMemory>
    ensures { IfOk result (λ r. r ≡ filter (λ n. nat_le 1 n) times.now) }
{
    let mut used = Row::new(alloc);
    for number in times {
        if 1 <= *number {
            used.push(*number)?;
        }
    }
    Ok(used)
}

/// Copies of the values, each as often as its number says, side by side as far as both go. `NoMemory` where there is no room for them.
#[tactic(auto, using(crate::proofs::RepeatedValues::each_next))]
fn all_copies(alloc: Global, times: &[usize], vals: &[Val]) -> Result<Row<Val>, NoMemory>
    ensures { IfOk result (λ r. map pure_val r ≡ repeated_each times.now (map pure_val vals.now)) }
{
    let mut row = Row::new(alloc);
    for k in 0..times.len() {
        if k >= vals.len() {
            return Ok(row);
        }
        add_copies(alloc, &mut row, &vals[k], times[k])?;
    }
    Ok(row)
}

/// Puts so many copies of a value behind others. `NoMemory` where there is no room for them.
#[tactic(auto, using(crate::proofs::CountLoops::one_more))]
fn add_copies(alloc: Global, row: &mut Row<Val>, val: &Val, count: usize) -> Result<(), NoMemory>
    ensures { OnOk result (row.new ≡ row.old ++ replicate count val.now) }
{
    for k in 0..count {
        add_copy(alloc, row, val)?;
    }
    Ok(())
}
