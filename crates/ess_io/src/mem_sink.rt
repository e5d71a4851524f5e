// Sinks in memory, and one that keeps nothing.
ghost use Rattle.std.specs.Prelude.{◌≡◌, ◌<◌, ◌≤◌, ◌↔◌, None, Some, Ok, IsTrue, IsErr, IfOk, OnErr, [], length};
ghost use Rattle.ess_io.specs.MemorySink.{is_failing, count_taken, after_taking, after_failing};

use crate::calls::Calls;
use crate::{Failed, Sink};
use ess_rows::NoMemory;
use std::alloc::Global;
use std::marker::Model;

/// A sink in memory. Calls with a piece that isn't empty are counted from 1, and fail at the numbers that it was made
/// with; a call past number 2^64 - 1 has no number. A call also fails where no room is left.
#[derive(Drop)]
pub struct MemSink {
    held: Vec<u8>,
    calls: Calls,
    step: u64,
    room: u64,
    faults: u64,
}

impl Model for MemSink {
    ghost use Rattle.ess_io.specs.MemorySink.{SinkMemory};
    ghost use Rattle.std.specs.Prelude.{◌<◌, ◌≤◌, vec_len, vec_capacity};

    ghost Value = { SinkMemory };

    ghost view = { λ a. record { held = a.held.items; fails = a.calls.fails.items; step = a.step; room = a.room; made = a.calls.made; faults = a.faults } };

    ghost invariant = { λ a. (0 < a.step) × (vec_len a.held ≤ a.room) × (a.room ≤ vec_capacity a.held) };
}

impl MemSink {
    /// An empty sink that takes at most `step` bytes in a call, and `room` bytes in all, whose memory it takes here. The
    /// calls whose numbers are in `fails` fail.
    ///
    /// `NoMemory` where there is no memory for `room` bytes.
    pub fn new(alloc: Global, fails: Vec<u64>, step: u64, room: u64) -> Result<MemSink, NoMemory>
        requires { 0 < step }
        ensures { IfOk result (λ sink. sink ≡ record { held = []; fails = fails.items; step = step; room = room; made = 0; faults = 0 }) }
    {
        Ok(MemSink {
            held: Vec::with_capacity(alloc, room as usize)?,
            calls: Calls::new(fails),
            step,
            room,
            faults: 0,
        })
    }

    /// The bytes that it took, in order.
    pub fn bytes(&self) -> &[u8]
        ensures { result.now ≡ self.now.held }
    {
        self.held.as_slice()
    }
}

impl Sink for MemSink {
    ghost bytes = { λ sink. Some sink.held };

    ghost faults = { λ sink. sink.faults };

    /// Takes as much as one call takes, of what the piece and the room hold. Fails exactly where the number of the call
    /// is listed or no room is left. No memory.
    fn write(&mut self, piece: &[u8]) -> Result<usize, Failed>
        ensures empty { length piece.now ≡ 0 → (result ≡ Ok 0) × (self.new ≡ self.old) }
        ensures failed { IsErr result ↔ ((0 < length piece.now) × IsTrue (is_failing self.old)) }
        ensures some { 0 < length piece.now → IfOk result (λ count. (0 < count) × (count ≤ length piece.now)) }
        ensures ok { 0 < length piece.now → IfOk result (λ count. (count ≡ count_taken self.old (length piece.now))
            × (self.new ≡ after_taking self.old piece.now)) }
        ensures err { OnErr result (self.new ≡ after_failing self.old) }
        ensures fault_count { self.old.faults ≤ self.new.faults }
    {
        if piece.is_empty() {
            return Ok(0);
        }
        let listed = self.calls.next();
        let left = self.room - self.held.len() as u64;
        if listed || left == 0 {
            self.faults = self.faults.saturating_add(1);
            return Err(Failed);
        }
        let count = self.step.min(left).min(piece.len() as u64) as usize;
        self.held.extend_from_slice(&piece[..count]).unwrap();
        Ok(count)
    }
}

/// A sink that takes all it is given, keeps nothing and never fails.
#[derive(Drop)]
pub struct SureSink;

impl Sink for SureSink {
    ghost bytes = { λ _. None };

    ghost faults = { λ _. 0 };

    fn write(&mut self, piece: &[u8]) -> Result<usize, Failed>
        ensures { result ≡ Ok (length piece.now) }
    {
        Ok(piece.len())
    }
}
