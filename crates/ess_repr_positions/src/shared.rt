//! What positions of values and of domains share.
ghost use Rattle.std.specs.Prelude.{◌≡◌, IfOk, Ok, pos};

use ess_core::NoMemory;
use std::alloc::Global;

/// A position as a number. `NoMemory` where it lies above the numbers of 64 bits.
pub(crate) fn number_of(position: u64) -> Result<i64, NoMemory>
    ensures { IfOk result (λ n. n ≡ pos position) }
{
    match i64::try_from(position) {
        Ok(number) => Ok(number),
        Err(_) => Err(NoMemory),
    }
}

/// Two that were made beside each other. `NoMemory` where one of them wasn't.
pub(crate) fn both<A: Drop, B: Drop>(
    first: Result<A, NoMemory>,
    second: Result<B, NoMemory>,
) -> Result<(A, B), NoMemory>
    ensures first { IfOk result (λ p. first ≡ Ok p.0) }
    ensures second { IfOk result (λ p. second ≡ Ok p.1) }
{
    match first {
        Ok(first) => match second {
            Ok(second) => Ok((first, second)),
            Err(no) => {
                drop(first);
                Err(no)
            }
        },
        Err(no) => {
            drop(second);
            Err(no)
        }
    }
}
