// Runs over the examples of `data/`: what is written below `out/` is compared with the stored file of the same name.
use crate::lines::{put_run, words_of};
use ess_io::{FileNo, Files};
use ess_rows::NoMemory;
use std::alloc::Global;
use std::fmt::Write;

const MOST_BYTES: u64 = 99999;

/// What a file holds, or `None` where it can't be read.
fn held<F: Files>(alloc: Global, files: &mut F, name: &str) -> Result<Option<Vec<u8>>, NoMemory> {
    match files.read(alloc, name, MOST_BYTES) {
        Ok(bytes) => Ok(Some(bytes)),
        Err(FileNo::NoMemory) => Err(NoMemory),
        Err(_) => Ok(None),
    }
}

/// What is said of the file that was written, beside the stored one.
fn compared<F: Files>(alloc: Global, files: &mut F, name: &str) -> Result<&'static str, NoMemory> {
    let mut place = String::from_str(alloc, "out/")?;
    place.push_str(name)?;
    let written = held(alloc, files, place.as_str())?;
    let stored = held(alloc, files, name)?;
    match (&written, &stored) {
        (Some(written), Some(stored)) => Ok(said_of(written, stored)),
        _ => Ok("NOT THERE"),
    }
}

/// What is said of what was written and what is stored.
fn said_of(written: &[u8], stored: &[u8]) -> &'static str {
    if written == stored {
        "as stored"
    } else {
        "NOT AS STORED"
    }
}

/// A run of these fields: the words of a command, ` ## `, and the name of a stored file. It is told by that name, the status, the line
/// that the program says, and whether the file of that name below `out/` is, byte by byte, the stored one.
pub(crate) fn put_example<F: Files>(
    alloc: Global,
    out: &mut String,
    fields: &str,
    files: &mut F,
) -> Result<(), NoMemory> {
    let (command, name) = fields.split_once(" ## ").unwrap_or((fields, ""));
    let words = words_of(alloc, command)?;
    write!(out, "{name}: ")?;
    put_run(alloc, out, &words, files)?;
    let said = compared(alloc, files, name)?;
    write!(out, ", {said}")?;
    Ok(())
}
