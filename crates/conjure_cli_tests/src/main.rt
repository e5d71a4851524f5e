//! Runs the cases of standard input, one a line, and prints a line of what comes out of each. A case is the name of a call
//! and its fields, behind a `#` each, or with ` ## ` between each two. In a field `~n` and `~r` stand for a line feed and a carriage
//! return. The examples' files lie in `data/`.
#![tactic(auto)]

mod examples;
mod lines;
mod no_room;
mod runs;
mod texts;

use conjure_cli::model_of;
use ess_io::{DiskFiles, Files};
use ess_rows::NoMemory;
use std::alloc::Global;
use std::fmt::Write;
use std::io;

/// The line with the bytes for which its signs stand.
fn unescaped(alloc: Global, line: &str) -> Result<String, NoMemory> {
    let line = line.replace(alloc, "~n", "\n")?;
    Ok(line.replace(alloc, "~r", "\r")?)
}

/// The model of a text, or why there is none.
fn put_model(alloc: Global, out: &mut String, text: &str) -> Result<(), NoMemory> {
    match model_of(alloc, text.as_bytes()) {
        Ok(model) => write!(out, "{:?}", str::from_utf8(&model).unwrap_or(""))?,
        Err(no) => write!(out, "{no:?}")?,
    }
    Ok(())
}

/// Puts what comes out of a case. The files are those of the examples.
fn put_answer<F: Files>(
    alloc: Global,
    out: &mut String,
    line: &str,
    files: &mut F,
) -> Result<(), NoMemory> {
    let (call, fields) = line.split_once('#').unwrap_or((line, ""));
    match call {
        "model" => put_model(alloc, out, fields),
        "long" => runs::put_long(alloc, out, fields),
        "no_room" => no_room::put_run(alloc, out, fields),
        "judged" => texts::put_verdict(alloc, out, fields),
        "translated" => texts::put_translation(alloc, out, fields),
        "modelled" => texts::put_written_model(alloc, out, fields),
        "example" => examples::put_example(alloc, out, fields, files),
        _ => runs::put_run(alloc, out, fields),
    }
}

/// The line of what comes out of a case.
fn answer<F: Files>(alloc: Global, line: &str, files: &mut F) -> Result<String, NoMemory> {
    let mut out = String::new(alloc);
    let line = unescaped(alloc, line)?;
    put_answer(alloc, &mut out, line.as_str(), files)?;
    Ok(out)
}

fn main(rt: HostRuntime) -> io::Result<()> {
    let mut files = DiskFiles::new(&rt);
    for line in rt.lines(rt.alloc()) {
        match answer(rt.alloc(), line?.as_str(), &mut files) {
            Ok(text) => println!(rt; "{text}")?,
            Err(NoMemory) => return Err(io::ErrorKind::OutOfMemory.into()),
        }
    }
    Ok(())
}
