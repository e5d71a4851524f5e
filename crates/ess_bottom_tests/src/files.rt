// Calls of files by name.
use crate::shown::put;
use ess_io::{FileNo, Files, MemFiles, SureFiles};
use ess_rows::NoMemory;
use std::alloc::Global;

/// What files do that no call of `Files` does.
pub(crate) trait Told {
    /// Puts the name at these bytes.
    fn put_file(&mut self, name: &str, bytes: &[u8]) -> Result<(), NoMemory>;

    /// What the name holds, where it is told.
    fn told(&self, name: &str) -> Option<&[u8]>;
}

impl Told for MemFiles {
    fn put_file(&mut self, name: &str, bytes: &[u8]) -> Result<(), NoMemory> {
        self.put(name, bytes)
    }

    fn told(&self, name: &str) -> Option<&[u8]> {
        self.get(name)
    }
}

impl Told for SureFiles {
    fn put_file(&mut self, name: &str, bytes: &[u8]) -> Result<(), NoMemory> {
        self.put(name, bytes)
    }

    fn told(&self, name: &str) -> Option<&[u8]> {
        self.get(name)
    }
}

/// What the name holds, where it is told.
fn held<'a, F: Told>(files: &'a F, name: &str) -> Option<&'a str> {
    match files.told(name) {
        Some(bytes) => Some(str::from_utf8(bytes).unwrap_or("")),
        None => None,
    }
}

/// What a read of at most so many bytes, and one more, answers.
fn read<F: Files>(
    alloc: Global,
    out: &mut String,
    files: &mut F,
    name: &str,
    max: &str,
) -> Result<(), NoMemory> {
    match files.read(alloc, name, max.parse().unwrap_or(0)) {
        Ok(bytes) => put(out, &str::from_utf8(&bytes).unwrap_or("")),
        Err(FileNo::NoMemory) => Err(NoMemory),
        Err(no) => put(out, &no),
    }
}

/// How many bytes the name holds, where it is told.
fn held_len<F: Told>(files: &F, name: &str) -> Option<usize> {
    files.told(name).map(|bytes| bytes.len())
}

/// A write, or a put.
fn stored<F: Files + Told>(
    alloc: Global,
    files: &mut F,
    call: &str,
    name: &str,
    text: &str,
) -> Result<(), FileNo> {
    if call == "put" {
        files.put_file(name, text.as_bytes())?;
        return Ok(());
    }
    files.write(alloc, name, text.as_bytes())
}

/// What a write answers, or a put. For want of memory a name stays as it was.
fn store<F: Files + Told>(
    alloc: Global,
    out: &mut String,
    files: &mut F,
    call: &str,
    name: &str,
    text: &str,
) -> Result<(), NoMemory> {
    let before = held_len(files, name);
    let answer = stored(alloc, files, call, name, text);
    if answer == Err(FileNo::NoMemory) && held_len(files, name) == before {
        return Err(NoMemory);
    }
    put(out, &answer)
}

/// What one call answers.
fn put_answer<F: Files + Told>(
    alloc: Global,
    out: &mut String,
    files: &mut F,
    call: &str,
) -> Result<(), NoMemory> {
    let (word, rest) = call.split_once(' ').unwrap_or((call, ""));
    let (name, given) = rest.split_once(' ').unwrap_or((rest, ""));
    match word {
        "read" => read(alloc, out, files, name, given),
        "get" => put(out, &held(files, name)),
        _ => store(alloc, out, files, word, name, given),
    }
}

/// What each call answers.
pub(crate) fn called<F: Files + Told>(
    alloc: Global,
    out: &mut String,
    files: &mut F,
    calls: &str,
) -> Result<(), NoMemory> {
    for call in calls.split('#') {
        put_answer(alloc, out, files, call)?;
    }
    Ok(())
}
