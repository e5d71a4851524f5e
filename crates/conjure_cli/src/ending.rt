// How a run ends.
ghost use Rattle.std.specs.Prelude.{◌≡◌, ◌≤◌, ◌++◌, map, OnOk, OnErr};
ghost use Rattle.std.specs.List.{concat};
ghost use Rattle.ess_io.specs.Counts.{Rose};
ghost use Rattle.ess_io.specs.Sinks.{grown, GrewByPrefix};
ghost use Rattle.conjure_cli.specs.Seen.{sink_at};
ghost use Rattle.conjure_cli.specs.Ending.{status_of, told_of, out_line, LeavesErr};

use ess_io::{PutNo, Sink, put_all};

/// Why a run of the program ends.
#[derive(Clone, Copy, Debug, PartialEq, Eq)]
pub enum Ending {
    /// The work is done.
    Done,
    /// The words don't fit.
    Usage,
    /// The file isn't there.
    Missing,
    /// The file cannot be read.
    Unreadable,
    /// The file has more bytes than the limit.
    TooLong,
    /// A part of the model can't be written yet.
    NotYet,
    /// The model cannot be written.
    Unwritable,
    /// The line on standard output cannot be written.
    OutputFailed,
    /// Memory ran out.
    NoMemory,
}

/// Where the model is written to where no folder is given.
pub(crate) const MODEL_FILE: &str = "conjure-output/model000001.eprime";

impl Ending {
    /// The status of the program.
    pub(crate) fn status(self) -> u8
        ensures { result ≡ status_of self }
    {
        match self {
            Ending::Done => 0,
            Ending::Usage => 2,
            Ending::NotYet => 3,
            Ending::Missing => 4,
            Ending::Unreadable => 4,
            Ending::Unwritable => 4,
            Ending::OutputFailed => 4,
            Ending::TooLong => 5,
            Ending::NoMemory => 6,
        }
    }

    /// What is said of the ending: the file that it speaks of, which is that of a read or the place of the model, and the text behind it.
    fn told<'a>(self, file: &'a str, place: &'a str) -> (&'a str, &'a str)
        ensures { result.0.now ++ result.1.now ≡ told_of file.now place.now self }
    {
        match self {
            Ending::Done => ("", ""),
            Ending::Usage => (
                "",
                "usage: modelling, translate-parameter, translate-solution, validate-solution, selftest",
            ),
            Ending::Missing => (file, ": no such file"),
            Ending::Unreadable => (file, ": cannot be read"),
            Ending::TooLong => (file, ": longer than 16777216 bytes"),
            Ending::NotYet => (file, ": not supported yet"),
            Ending::Unwritable => (place, ": cannot be written"),
            Ending::OutputFailed => ("", "standard output: cannot be written"),
            Ending::NoMemory => ("", "out of memory"),
        }
    }
}

/// Appends the pieces one after another, as far as the sink takes them. No memory.
fn put_pieces<S: Sink>(sink: &mut S, pieces: &[&[u8]]) -> Result<(), PutNo>
    ensures ok { OnOk result (S.bytes sink.new ≡ grown (S.bytes sink.old) (concat (map (λ piece. piece.now) pieces.now))) }
    ensures part { OnErr result (GrewByPrefix (S.bytes sink.old) (S.bytes sink.new) (concat (map (λ piece. piece.now) pieces.now))) }
    ensures failed { OnErr result (Rose (S.faults sink.old) (S.faults sink.new)) }
    ensures fault_count { S.faults sink.old ≤ S.faults sink.new }
{
    for piece in pieces {
        put_all(sink, piece)?;
    }
    Ok(())
}

/// Appends the line that says where the model is, as far as the sink takes it. No memory.
#[tactic(auto, using(crate::proofs::PieceLaws::out_pieces))]
pub(crate) fn put_wrote<S: Sink>(out: &mut S, place: &str) -> Result<(), PutNo>
    ensures ok { OnOk result (S.bytes out.new ≡ grown (S.bytes out.old) (out_line place.now)) }
    ensures part { OnErr result (GrewByPrefix (S.bytes out.old) (S.bytes out.new) (out_line place.now)) }
    ensures failed { OnErr result (Rose (S.faults out.old) (S.faults out.new)) }
{
    put_pieces(out, &[b"wrote ", place.as_bytes(), b"\n"])
}

/// Appends the ending's line on `err`, as far as the sink takes it, and nothing where the work is done. No memory.
pub(crate) fn report<E: Sink>(err: &mut E, file: &str, place: &str, ending: Ending)
    ensures { LeavesErr ending file.now place.now (sink_at (E.bytes err.old) (E.faults err.old)) (sink_at (E.bytes err.new) (E.faults err.new)) }
{
    if let Ending::Done = ending {
        return;
    }
    let (name, text) = ending.told(file, place);
    let _ = put_pieces(
        err,
        &[b"conjure: ", name.as_bytes(), text.as_bytes(), b"\n"],
    );
}
