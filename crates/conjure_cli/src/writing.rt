// The commands that translate: what is written, and what is said of it.
ghost use Rattle.std.specs.Prelude.{◌≡◌, Some, true, option_map};
ghost use Rattle.conjure_cli.specs.Seen.{files_at, sink_at};
ghost use Rattle.conjure_cli.specs.Tasks.{translate, ReadsAfter};
ghost use Rattle.conjure_cli.specs.Translating.{Written};
ghost use Rattle.conjure_cli.specs.Runs.{outcome_status, Ends};

use crate::ending::{Ending, put_wrote, report};
use crate::outcome::Outcome;
use crate::refining::unwritten;
use crate::telling::tell_stop;
use crate::translating::{Sources, translation_of};
use ess_io::{Files, Sink};
use std::alloc::Global;

/// Writes bytes to their place, and says on `out` where they are.
pub(crate) fn written<F: Files, O: Sink>(
    alloc: Global,
    place: &str,
    bytes: &[u8],
    files: &mut F,
    out: &mut O,
) -> Ending
    ensures written { Written result place.now bytes.now
        (files_at (F.tree files.old) (F.faults files.old) (F.misses files.old))
        (files_at (F.tree files.new) (F.faults files.new) (F.misses files.new))
        (sink_at (O.bytes out.old) (O.faults out.old)) (sink_at (O.bytes out.new) (O.faults out.new)) }
    ensures reads { F.reads files.new ≡ F.reads files.old }
{
    if let Err(no) = files.write(alloc, place, bytes) {
        return unwritten(no);
    }
    match put_wrote(out, place) {
        Ok(()) => Ending::Done,
        Err(_) => Ending::OutputFailed,
    }
}

/// Translates a parameter, or cells, by the files of these names, and writes the translation to its place; or says what stands against
/// it.
pub(crate) fn translated<F: Files, O: Sink, E: Sink>(
    alloc: Global,
    sources: Sources,
    place: &str,
    files: &mut F,
    out: &mut O,
    err: &mut E,
) -> Outcome
    ensures ended { Ends result (outcome_status result)
        (Some (translate sources.entry.model.now sources.entry.param.now (option_map (λ name. name.now) sources.entry.cells)
        place.now)) true
        (files_at (F.tree files.old) (F.faults files.old) (F.misses files.old))
        (files_at (F.tree files.new) (F.faults files.new) (F.misses files.new))
        (sink_at (O.bytes out.old) (O.faults out.old)) (sink_at (O.bytes out.new) (O.faults out.new))
        (sink_at (E.bytes err.old) (E.faults err.old)) (sink_at (E.bytes err.new) (E.faults err.new)) }
    ensures reads { ReadsAfter
        (Some (translate sources.entry.model.now sources.entry.param.now (option_map (λ name. name.now) sources.entry.cells)
        place.now)) true
        (outcome_status result) (F.reads files.old) (F.reads files.new) }
{
    match translation_of(alloc, sources, files) {
        Ok(bytes) => {
            let ending = written(alloc, place, &bytes, files, out);
            report(err, sources.model, place, ending);
            Outcome::Plain(ending)
        }
        Err(stop) => {
            let told = sources.told(&stop);
            tell_stop(alloc, stop.outcome, told, err)
        }
    }
}
