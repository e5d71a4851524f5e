// The streams of the system.
ghost use Rattle.std.specs.Prelude.{◌≡◌, ◌<◌, ◌≤◌, None, Ok, IfOk, OnOk, OnErr, IfSome, length};
ghost use Rattle.ess_io.specs.Counts.{raised};

use crate::{Failed, Sink};
use std::io::{ErrorKind, Write};

/// A writer of std as a sink, such as standard output. It doesn't tell what it took.
#[derive(Drop)]
pub struct StdSink<W> {
    writer: W,
    faults: u64,
}

impl<W> StdSink<W> {
    /// The sink over this writer. No memory.
    pub fn new(writer: W) -> StdSink<W>
        ensures { result ≡ record { writer = writer; faults = 0 } }
    {
        StdSink { writer, faults: 0 }
    }
}

// Writes some bytes of a piece, and answers how many, or nothing where the writer fails or takes none of it.
fn write_some<W: Write>(writer: &mut W, piece: &[u8]) -> Option<usize>
    ensures { IfSome result (λ count. (0 < count) × (count ≤ length piece.now)) }
{
    for _ in 0..u64::MAX {
        match writer.write(piece) {
            Ok(0) => return None,
            Ok(count) => return Some(count),
            Err(e) if e.kind() == ErrorKind::Interrupted => {}
            Err(_) => return None,
        }
    }
    None
}

impl<W: Write> Sink for StdSink<W> {
    ghost bytes = { λ _. None };

    ghost faults = { λ sink. sink.faults };

    /// A writer that takes nothing of a piece that isn't empty counts as a failure.
    fn write(&mut self, piece: &[u8]) -> Result<usize, Failed>
        ensures empty { length piece.now ≡ 0 → (result ≡ Ok 0) × (self.new ≡ self.old) }
        ensures some { 0 < length piece.now → IfOk result (λ count. (0 < count) × (count ≤ length piece.now)) }
        ensures ok { OnOk result (self.new.faults ≡ self.old.faults) }
        ensures err { OnErr result (self.new.faults ≡ raised self.old.faults) }
        ensures fault_count { self.old.faults ≤ self.new.faults }
    {
        if piece.is_empty() {
            return Ok(0);
        }
        match write_some(&mut self.writer, piece) {
            Some(count) => Ok(count),
            None => {
                self.faults = self.faults.saturating_add(1);
                Err(Failed)
            }
        }
    }
}
