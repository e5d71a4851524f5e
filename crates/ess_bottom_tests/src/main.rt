//! Runs the cases of standard input, one a line, and prints a line of what comes out of each. A case is the name of a call
//! and its fields, behind a `#` each. In a field `~n`, `~r`, `~t` and `~0` stand for a line feed, a carriage return, a tab
//! and a byte 0.
//!
//! What a case prints is the same where an allocation fails, as far as the program comes: it then ends with another status.
#![tactic(auto)]

mod boxes;
mod calls;
mod disk;
mod files;
mod lexing;
mod orders;
mod rows;
mod shown;
mod sinks;
mod streams;
mod texts;
mod trees;
mod words;

use ess_rows::NoMemory;
use std::alloc::Global;
use std::{fs, io, rt};

/// The line with the bytes for which its signs stand.
fn unescaped(alloc: Global, line: &str) -> Result<String, NoMemory> {
    let line = line.replace(alloc, "~n", "\n")?;
    let line = line.replace(alloc, "~r", "\r")?;
    let line = line.replace(alloc, "~t", "\t")?;
    Ok(line.replace(alloc, "~0", "\0")?)
}

/// Puts what comes out of a case.
fn put_answer<R: rt::Files>(
    system: &R,
    alloc: Global,
    out: &mut String,
    line: &str,
) -> Result<(), NoMemory> {
    let (call, fields) = line.split_once('#').unwrap_or((line, ""));
    if call == "disk" || call == "stream" {
        return disk::put_answer(system, alloc, out, call, fields);
    }
    calls::put_answer(alloc, out, call, fields)
}

/// The line of what comes out of a case.
fn answer<R: rt::Files>(system: &R, alloc: Global, line: &str) -> Result<String, NoMemory> {
    let mut out = String::new(alloc);
    let line = unescaped(alloc, line)?;
    put_answer(system, alloc, &mut out, line.as_str())?;
    Ok(out)
}

fn main(rt: HostRuntime) -> io::Result<()> {
    let alloc = rt.alloc();
    let _ = fs::remove_dir_all(&rt, "scratch");
    for line in rt.lines(alloc) {
        match answer(&rt, alloc, line?.as_str()) {
            Ok(text) => println!(rt; "{}", text.trim_end())?,
            Err(NoMemory) => return Err(io::ErrorKind::OutOfMemory.into()),
        }
    }
    fs::remove_dir_all(&rt, "scratch")
}
