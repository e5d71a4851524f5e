// Sinks in memory.
ghost use Rattle.std.specs.Prelude.{◌<◌, IfOk};

use crate::rows::numbers;
use crate::shown::put;
use ess_io::{MemSink, Sink, SureSink, put_all};
use ess_rows::NoMemory;
use std::alloc::Global;
use std::str::Split;

/// A sink of three fields: the numbers of the calls that fail, how much one call takes, and the room.
fn sink_of(alloc: Global, parts: &mut Split<'_, char>) -> Result<MemSink, NoMemory> {
    let fails = numbers(alloc, parts.next().unwrap_or(""))?.into_vec();
    let step: u64 = parts.next().unwrap_or("").parse().unwrap_or(1);
    let room = parts.next().unwrap_or("").parse().unwrap_or(0);
    MemSink::new(alloc, fails, step.max(1), room)
}

/// What `put_all` answers of bytes, and what the sink took.
pub(crate) fn put_whole(alloc: Global, out: &mut String, fields: &str) -> Result<(), NoMemory> {
    let mut parts = fields.split('#');
    let mut sink = sink_of(alloc, &mut parts)?;
    let answer = put_all(&mut sink, parts.next().unwrap_or("").as_bytes());
    let held = str::from_utf8(sink.bytes()).unwrap_or("");
    put(out, &answer)?;
    put(out, &held)
}

/// What a write answers of each piece, and what the sink took.
pub(crate) fn pieces(alloc: Global, out: &mut String, fields: &str) -> Result<(), NoMemory> {
    let mut parts = fields.split('#');
    let mut sink = sink_of(alloc, &mut parts)?;
    for piece in parts {
        put(out, &sink.write(piece.as_bytes()))?;
    }
    put(out, &str::from_utf8(sink.bytes()).unwrap_or(""))
}

/// What the sink answers that takes all.
pub(crate) fn sure(out: &mut String) -> Result<(), NoMemory> {
    put(out, &SureSink.write(b"abc"))?;
    put(out, &put_all(&mut SureSink, b"abc"))
}
