ghost use Rattle.std.specs.Prelude.{◌≡◌, map, pos, IfOk};
ghost use Rattle.ess_semantics.specs.Collections.{count as count_of};
ghost use Rattle.ess_core.specs.ValueViews.{pure_val};

use crate::members::same;
use ess_core::{NoMemory, Row, Val};
use std::alloc::Global;

/// How often each member is among the items. `NoMemory` where there is no room for the numbers.
pub fn counts(alloc: Global, members: &[Val], items: &[Val]) -> Result<Row<i64>, NoMemory>
    ensures { IfOk result (λ r. r ≡ map (λ x. pos (count_of (map pure_val items.now) x)) (map pure_val members.now)) }
{
    let mut counts = Row::with_capacity(alloc, members.len())?;
    for member in members {
        counts.push(times(items, member)?)?;
    }
    Ok(counts)
}

/// How often a value is in the list. `NoMemory` where the number is outside 64 bits.
fn times(items: &[Val], val: &Val) -> Result<i64, NoMemory>
    ensures { IfOk result (λ n. n ≡ pos (count_of (map pure_val items.now) (pure_val val.now))) }
{
    match i64::try_from(count(items, val)) {
        Ok(times) => Ok(times),
        Err(_) => Err(NoMemory),
    }
}

/// How often a value is in the list.
fn count(items: &[Val], val: &Val) -> usize
    ensures { result ≡ count_of (map pure_val items.now) (pure_val val.now) }
{
    let mut found: usize = 0;
    for item in items {
        if same(item, val) {
            found += 1;
        }
    }
    found
}
