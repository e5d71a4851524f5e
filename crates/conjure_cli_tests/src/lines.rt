// Runs that are told by their status and the line that they say.
use conjure_cli::run;
use ess_io::{Files, MemSink};
use ess_rows::NoMemory;
use std::alloc::Global;
use std::fmt::Write;

/// The words of a command.
pub(crate) fn words_of(alloc: Global, command: &str) -> Result<Vec<String>, NoMemory> {
    let mut words = Vec::new(alloc);
    for word in command.split_whitespace() {
        words.push(String::from_str(alloc, word)?)?;
    }
    Ok(words)
}

/// Puts the line that a sink took, without its line feed.
fn put_line(out: &mut String, bytes: &[u8]) -> Result<(), NoMemory> {
    let line = str::from_utf8(bytes).unwrap_or("");
    out.push_str(line.trim_end())?;
    Ok(())
}

/// Runs a command, and puts the status and the line that it says.
pub(crate) fn put_run<F: Files>(
    alloc: Global,
    out: &mut String,
    words: &[String],
    files: &mut F,
) -> Result<(), NoMemory> {
    let mut told = MemSink::new(alloc, Vec::new(alloc), 999, 999)?;
    let mut refused = MemSink::new(alloc, Vec::new(alloc), 999, 999)?;
    let status = run(alloc, words, files, &mut told, &mut refused);
    write!(out, "{} ", status.0)?;
    put_line(out, told.bytes())?;
    put_line(out, refused.bytes())
}
