// What is told of a solution's verdict, and of what stands against it.
ghost use Rattle.std.specs.Prelude.{◌≡◌, []};
ghost use Rattle.conjure_cli.specs.Ending.{LeavesErr};
ghost use Rattle.conjure_cli.specs.Seen.{sink_at};
ghost use Rattle.conjure_cli.specs.Judging.{VerdictTold, StopTold};
ghost use Rattle.conjure_cli.specs.Refining.{RefinedTold, ItemTold};

use crate::ending::{Ending, report};
use crate::outcome::Outcome;
use crate::reasons::{item_line, refusal_line, verdict_line};
use ess_domains::Verdict;
use ess_io::{Sink, put_all};
use ess_rows::NoMemory;
use ess_translate::TransNo;
use std::alloc::Global;

/// Says on `out` what the verdict is.
pub(crate) fn tell_verdict<O: Sink, E: Sink>(
    alloc: Global,
    verdict: Verdict,
    out: &mut O,
    err: &mut E,
) -> Outcome
    ensures { VerdictTold verdict result
        (sink_at (O.bytes out.old) (O.faults out.old)) (sink_at (O.bytes out.new) (O.faults out.new))
        (sink_at (E.bytes err.old) (E.faults err.old)) (sink_at (E.bytes err.new) (E.faults err.new)) }
{
    let line = match verdict_line(alloc, &verdict) {
        Ok(line) => line,
        Err(NoMemory) => return tell_memory(err),
    };
    match put_all(out, line.as_bytes()) {
        Ok(()) => Outcome::Judged(verdict),
        Err(_) => {
            report(err, "", "", Ending::OutputFailed);
            Outcome::Plain(Ending::OutputFailed)
        }
    }
}

/// Says on `err` that memory ran out.
pub(crate) fn tell_memory<E: Sink>(err: &mut E) -> Outcome
    ensures outcome { result ≡ Outcome.Plain Ending.NoMemory }
    ensures told { LeavesErr Ending.NoMemory [] []
        (sink_at (E.bytes err.old) (E.faults err.old)) (sink_at (E.bytes err.new) (E.faults err.new)) }
{
    report(err, "", "", Ending::NoMemory);
    Outcome::Plain(Ending::NoMemory)
}

/// Says on `err` why a run stopped at a file.
pub(crate) fn tell_stop<E: Sink>(
    alloc: Global,
    outcome: Outcome,
    file: &str,
    err: &mut E,
) -> Outcome
    ensures { StopTold outcome result file.now
        (sink_at (E.bytes err.old) (E.faults err.old)) (sink_at (E.bytes err.new) (E.faults err.new)) }
{
    match outcome {
        Outcome::Plain(ending) => {
            report(err, file, "", ending);
            Outcome::Plain(ending)
        }
        Outcome::Refused(why) => tell_refusal(alloc, why, file, err),
        Outcome::Judged(verdict) => Outcome::Judged(verdict),
        Outcome::BadItem(number) => Outcome::BadItem(number),
    }
}

/// Says on `err` how a run that refines a file into a place ends, where it isn't done.
pub(crate) fn tell_refined<E: Sink>(
    alloc: Global,
    outcome: Outcome,
    file: &str,
    place: &str,
    err: &mut E,
) -> Outcome
    ensures { RefinedTold outcome result file.now place.now
        (sink_at (E.bytes err.old) (E.faults err.old)) (sink_at (E.bytes err.new) (E.faults err.new)) }
{
    match outcome {
        Outcome::Plain(ending) => {
            report(err, file, place, ending);
            Outcome::Plain(ending)
        }
        Outcome::Refused(why) => tell_refusal(alloc, why, file, err),
        Outcome::BadItem(number) => tell_item(alloc, number, err),
        Outcome::Judged(verdict) => Outcome::Judged(verdict),
    }
}

/// Says on `err` that an item of the list of representations is refused.
fn tell_item<E: Sink>(alloc: Global, number: u64, err: &mut E) -> Outcome
    ensures { ItemTold number result
        (sink_at (E.bytes err.old) (E.faults err.old)) (sink_at (E.bytes err.new) (E.faults err.new)) }
{
    match item_line(alloc, number) {
        Ok(line) => {
            let _ = put_all(err, line.as_bytes());
            Outcome::BadItem(number)
        }
        Err(NoMemory) => tell_memory(err),
    }
}

/// Says on `err` why a text is refused.
fn tell_refusal<E: Sink>(alloc: Global, why: TransNo, file: &str, err: &mut E) -> Outcome
    ensures { StopTold (Outcome.Refused why) result file.now
        (sink_at (E.bytes err.old) (E.faults err.old)) (sink_at (E.bytes err.new) (E.faults err.new)) }
{
    match refusal_line(alloc, file, &why) {
        Ok(line) => {
            let _ = put_all(err, line.as_bytes());
            Outcome::Refused(why)
        }
        Err(NoMemory) => tell_memory(err),
    }
}
