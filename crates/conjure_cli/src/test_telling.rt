//! The line that the self-test tells.
ghost use Rattle.std.specs.Prelude.{IfOk};
ghost use Rattle.conjure_cli.specs.Told.{IsTestLine};

use crate::counting::counts;
use crate::counts_line::text_of_counts;
use ess_core::{NoMemory, Text};
use std::alloc::Global;

/// The line that the self-test with a number tells, with its end: `statements A, cells B, constraints C, members D`. `NoMemory` for want
/// of memory.
#[tactic(auto, using(crate::proofs::Behind::told))]
pub fn test_line(alloc: Global, number: u64) -> Result<Text, NoMemory>
    ensures { IfOk result (IsTestLine number) }
{
    let counts = counts(alloc, number)?;
    let mut line = text_of_counts(alloc, counts)?;
    line.push_str("\n")?;
    Ok(line)
}
