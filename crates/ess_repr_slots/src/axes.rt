ghost use Rattle.std.specs.Prelude.{◌≡◌, IfOk};
ghost use Rattle.ess_semantics.specs.Numbers.{one_to};

use ess_core::{NoMemory, Row};
use std::alloc::Global;

/// The numbers of so many slots, from 1 on. `NoMemory` where there is no room for them.
#[tactic(auto, using(crate::proofs::SlotLoops::axis_more))]
pub fn slot_axis(alloc: Global, count: usize) -> Result<Row<i64>, NoMemory>
    ensures { IfOk result (λ r. r ≡ one_to count) }
{
    let mut axis = Row::with_capacity(alloc, count)?;
    let mut last: i64 = 0;
    for k in 0..count {
        match last.checked_add(1) {
            Some(next) => last = next,
            None => return Err(NoMemory),
        }
        axis.push(last)?;
    }
    Ok(axis)
}
