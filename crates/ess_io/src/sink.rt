// Where the lines of a run go.
ghost use Rattle.std.specs.Prelude.{◌≡◌, ℕ, ◌<◌, ◌≤◌, Option, List, Ok, IfOk, OnOk, OnErr, length, take};
ghost use Rattle.std.specs.Result.{IsErrOf};
ghost use Rattle.ess_io.specs.Counts.{Rose};
ghost use Rattle.ess_io.specs.Sinks.{grown, GrewByPrefix};

/// A call of a sink failed, and took nothing.
#[derive(Clone, Copy, Debug, PartialEq, Eq)]
pub struct Failed;

/// What takes bytes, a piece at a time. Its ghost members are the bytes that it took, in order, which an implementation
/// may leave untold, and a count of failures that never falls and stands still at 2^64 - 1.
pub trait Sink {
    // The bytes, or `None` where the implementation doesn't tell them.
    ghost bytes: { Self → Option (List ℕ) };

    // How often a call failed.
    ghost faults: { Self → ℕ };

    /// Takes the first bytes of the piece, at least one, and answers how many it took. An empty piece isn't counted as
    /// a call: it gives 0 and changes nothing. No memory.
    ///
    /// `Failed` only where `faults` rose; nothing was taken then.
    fn write(&mut self, piece: &[u8]) -> Result<usize, Failed>
        ensures empty { length piece.now ≡ 0 → (result ≡ Ok 0) × (self.new ≡ self.old) }
        ensures some { 0 < length piece.now → IfOk result (λ count. (0 < count) × (count ≤ length piece.now)) }
        ensures ok { IfOk result (λ count. bytes self.new ≡ grown (bytes self.old) (take count piece.now)) }
        ensures err { OnErr result (bytes self.new ≡ bytes self.old) }
        ensures failed { OnErr result (Rose (faults self.old) (faults self.new)) }
        ensures fault_count { faults self.old ≤ faults self.new };
}

/// Why `put_all` gave up.
#[derive(Clone, Copy, Debug, PartialEq, Eq)]
pub enum PutNo {
    /// The sink failed before it had taken all the bytes.
    Failed {
        /// How many bytes it took: the first ones.
        went: u64,
    },
}

/// Appends all the bytes to the sink, in as many calls as it needs. No memory.
///
/// `Failed` where a call failed, only where the sink's `faults` rose: exactly the first `went` bytes were appended, and
/// some are left.
pub fn put_all<S: Sink>(sink: &mut S, bytes: &[u8]) -> Result<(), PutNo>
    ensures ok { OnOk result (S.bytes sink.new ≡ grown (S.bytes sink.old) bytes.now) }
    ensures went { (went : ℕ) → IsErrOf result (PutNo.Failed went)
        → (went < length bytes.now) × (S.bytes sink.new ≡ grown (S.bytes sink.old) (take went bytes.now)) }
    ensures part { OnErr result (GrewByPrefix (S.bytes sink.old) (S.bytes sink.new) bytes.now) }
    ensures failed { OnErr result (Rose (S.faults sink.old) (S.faults sink.new)) }
    ensures fault_count { S.faults sink.old ≤ S.faults sink.new }
{
    let mut went = 0;
    while went < bytes.len() {
        match sink.write(&bytes[went..]) {
            Ok(count) => went += count,
            Err(Failed) => return Err(PutNo::Failed { went: went as u64 }),
        }
    }
    Ok(())
}
