// The command that refines a file: its model, and where that is written.
ghost use Rattle.std.specs.Prelude.{◌≡◌, Some, true, IfOk, string_bytes, option_map};
ghost use Rattle.ess_io.specs.Counts.{raised};
ghost use Rattle.conjure_cli.specs.Seen.{files_at, sink_at};
ghost use Rattle.conjure_cli.specs.Tasks.{refine, ReadsAfter};
ghost use Rattle.conjure_cli.specs.Ending.{model_in};
ghost use Rattle.conjure_cli.specs.Refining.{Ran};
ghost use Rattle.conjure_cli.specs.Runs.{outcome_status, Ends};
ghost use Rattle.conjure_cli.specs.Refusals.{unread, unmodelled, unwritten};

use crate::ending::{Ending, report};
use crate::outcome::Outcome;
use crate::telling::tell_refined;
use crate::whole::model_for;
use crate::writing::written;
use conjure_modelling::ModelNo;
use ess_io::{FileNo, Files, Sink};
use ess_rows::NoMemory;
use std::alloc::Global;

/// The most bytes that a file may have.
const LIMIT: u64 = 16777216;

/// The ending where a read failed.
pub(crate) fn unread(no: FileNo) -> Ending
    ensures { result ≡ unread no }
{
    match no {
        FileNo::Missing => Ending::Missing,
        FileNo::Failed => Ending::Unreadable,
        FileNo::NoMemory => Ending::NoMemory,
    }
}

/// The outcome where a text has no model.
fn unmodelled(no: ModelNo) -> Outcome
    ensures { result ≡ unmodelled no }
{
    match no {
        ModelNo::NotYet => Outcome::Plain(Ending::NotYet),
        ModelNo::Specification(why) => Outcome::Refused(why),
        ModelNo::BadRepresentation(number) => Outcome::BadItem(number),
        ModelNo::NoMemory => Outcome::Plain(Ending::NoMemory),
    }
}

/// The ending where a write failed.
pub(crate) fn unwritten(no: FileNo) -> Ending
    ensures { result ≡ unwritten no }
{
    match no {
        FileNo::NoMemory => Ending::NoMemory,
        _ => Ending::Unwritable,
    }
}

/// Reads the file, refines it with the representations that a list names, writes its model to the place and says where the model is.
pub(crate) fn modelling<F: Files, O: Sink>(
    alloc: Global,
    file: &str,
    place: &str,
    list: Option<&str>,
    files: &mut F,
    out: &mut O,
) -> Outcome
    ensures ran { Ran result (option_map (λ l. l.now) list.entry) file.now place.now
        (files_at (F.tree files.old) (F.faults files.old) (F.misses files.old))
        (files_at (F.tree files.new) (F.faults files.new) (F.misses files.new))
        (sink_at (O.bytes out.old) (O.faults out.old)) (sink_at (O.bytes out.new) (O.faults out.new)) }
    ensures reads { F.reads files.new ≡ raised (F.reads files.old) }
{
    let text = match files.read(alloc, file, LIMIT) {
        Ok(text) => text,
        Err(no) => return Outcome::Plain(unread(no)),
    };
    if text.len() as u64 > LIMIT {
        return Outcome::Plain(Ending::TooLong);
    }
    match model_for(alloc, &text, list) {
        Ok(model) => Outcome::Plain(written(alloc, place, &model, files, out)),
        Err(no) => unmodelled(no),
    }
}

/// The file of a model in its folder.
fn model_in(alloc: Global, folder: &str) -> Result<String, NoMemory>
    ensures { IfOk result (λ place. string_bytes place ≡ model_in folder.now) }
{
    let mut place = String::from_str(alloc, folder)?;
    place.push_str("/model000001.eprime")?;
    Ok(place)
}

/// Refines the file into the folder, and says on `err` what stands against it.
#[tactic(auto, using(crate::proofs::RunLaws::ends_memory))]
pub(crate) fn refine_into<F: Files, O: Sink, E: Sink>(
    alloc: Global,
    folder: &str,
    file: &str,
    list: Option<&str>,
    files: &mut F,
    out: &mut O,
    err: &mut E,
) -> Outcome
    ensures ended { Ends result (outcome_status result)
        (Some (refine file.now (model_in folder.now) (option_map (λ l. l.now) list.entry))) true
        (files_at (F.tree files.old) (F.faults files.old) (F.misses files.old))
        (files_at (F.tree files.new) (F.faults files.new) (F.misses files.new))
        (sink_at (O.bytes out.old) (O.faults out.old)) (sink_at (O.bytes out.new) (O.faults out.new))
        (sink_at (E.bytes err.old) (E.faults err.old)) (sink_at (E.bytes err.new) (E.faults err.new)) }
    ensures reads { ReadsAfter (Some (refine file.now (model_in folder.now) (option_map (λ l. l.now) list.entry))) true
        (outcome_status result) (F.reads files.old) (F.reads files.new) }
{
    match model_in(alloc, folder) {
        Ok(place) => {
            let outcome = modelling(alloc, file, place.as_str(), list, files, out);
            tell_refined(alloc, outcome, file, place.as_str(), err)
        }
        Err(NoMemory) => {
            report(err, "", "", Ending::NoMemory);
            Outcome::Plain(Ending::NoMemory)
        }
    }
}
