// The command of the self-test.
ghost use Rattle.conjure_cli.specs.Seen.{sink_at};
ghost use Rattle.conjure_cli.specs.Testing.{TestTold};

use crate::ending::{Ending, report};
use crate::outcome::Outcome;
use crate::telling::tell_memory;
use crate::test_telling::test_line;
use ess_io::{Sink, put_all};
use ess_rows::NoMemory;
use std::alloc::Global;

/// Runs the self-test with a number and tells the line of its counts on `out`, or says on `err` what stands against it: that `out`
/// failed, or want of memory.
#[tactic(auto, using(crate::proofs::TestingLaws::told_all, crate::proofs::TestingLaws::told_part, crate::proofs::TestingLaws::told_none))]
pub(crate) fn tested<O: Sink, E: Sink>(
    alloc: Global,
    number: u64,
    out: &mut O,
    err: &mut E,
) -> Outcome
    ensures { TestTold number result
        (sink_at (O.bytes out.old) (O.faults out.old)) (sink_at (O.bytes out.new) (O.faults out.new))
        (sink_at (E.bytes err.old) (E.faults err.old)) (sink_at (E.bytes err.new) (E.faults err.new)) }
{
    let line = match test_line(alloc, number) {
        Ok(line) => line,
        Err(NoMemory) => return tell_memory(err),
    };
    match put_all(out, line.as_bytes()) {
        Ok(()) => Outcome::Plain(Ending::Done),
        Err(_) => {
            report(err, "", "", Ending::OutputFailed);
            Outcome::Plain(Ending::OutputFailed)
        }
    }
}
