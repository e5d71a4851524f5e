// The command that judges a solution.
ghost use Rattle.std.specs.Prelude.{Some, true};
ghost use Rattle.conjure_cli.specs.Seen.{files_at, sink_at};
ghost use Rattle.conjure_cli.specs.Tasks.{judge, ReadsAfter};
ghost use Rattle.conjure_cli.specs.Runs.{outcome_status, Ends};

use crate::judging::{Names, verdict_on};
use crate::outcome::Outcome;
use crate::telling::{tell_stop, tell_verdict};
use ess_io::{Files, Sink};
use std::alloc::Global;

/// Judges a solution by the files of these names, and says what the verdict is, or what stands against it.
#[tactic(auto, using(crate::proofs::JudgingLaws::ends_judged, crate::proofs::JudgingLaws::ends_stopped))]
pub(crate) fn judged<F: Files, O: Sink, E: Sink>(
    alloc: Global,
    names: Names,
    files: &mut F,
    out: &mut O,
    err: &mut E,
) -> Outcome
    ensures ended { Ends result (outcome_status result)
        (Some (judge names.entry.essence.now names.entry.param.now names.entry.solution.now)) true
        (files_at (F.tree files.old) (F.faults files.old) (F.misses files.old))
        (files_at (F.tree files.new) (F.faults files.new) (F.misses files.new))
        (sink_at (O.bytes out.old) (O.faults out.old)) (sink_at (O.bytes out.new) (O.faults out.new))
        (sink_at (E.bytes err.old) (E.faults err.old)) (sink_at (E.bytes err.new) (E.faults err.new)) }
    ensures reads { ReadsAfter (Some (judge names.entry.essence.now names.entry.param.now names.entry.solution.now)) true
        (outcome_status result)
        (F.reads files.old) (F.reads files.new) }
{
    match verdict_on(alloc, names, files) {
        Ok(verdict) => tell_verdict(alloc, verdict, out, err),
        Err(stop) => tell_stop(alloc, stop.outcome, names.file_of(stop.at), err),
    }
}
