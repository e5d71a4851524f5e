// Runs over files and sinks in memory.
use conjure_cli::run;
use ess_io::{Files, MemFiles, MemSink};
use ess_rows::NoMemory;
use std::alloc::Global;
use std::fmt::Write;

const MODEL: &str = "conjure-output/model000001.eprime";

/// The numbers of a field, with a space between each two.
fn numbers(alloc: Global, field: &str) -> Result<Vec<u64>, NoMemory> {
    let mut numbers = Vec::new(alloc);
    for word in field.split_whitespace() {
        numbers.push(word.parse().unwrap_or(0))?;
    }
    Ok(numbers)
}

/// A sink that takes 10 bytes a call, whose calls of these numbers fail.
pub(crate) fn sink(alloc: Global, fails: &str, room: u64) -> Result<MemSink, NoMemory> {
    let fails = numbers(alloc, fails)?;
    MemSink::new(alloc, fails, 10, room)
}

/// The words of a line.
fn words_of(alloc: Global, line: &str) -> Result<Vec<String>, NoMemory> {
    let mut words = Vec::new(alloc);
    for word in line.split_whitespace() {
        words.push(String::from_str(alloc, word)?)?;
    }
    Ok(words)
}

/// Runs on the words of a line, and puts the status and what both sinks took.
pub(crate) fn put_ended<F: Files>(
    alloc: Global,
    out: &mut String,
    words: &str,
    files: &mut F,
    told: &mut MemSink,
    refused: &mut MemSink,
) -> Result<(), NoMemory> {
    let words = words_of(alloc, words)?;
    let status = run(alloc, &words, files, told, refused);
    let told = str::from_utf8(told.bytes()).unwrap_or("");
    let refused = str::from_utf8(refused.bytes()).unwrap_or("");
    write!(out, "{} {told:?} {refused:?}", status.0)?;
    Ok(())
}

/// Puts what a file holds.
fn put_held(out: &mut String, files: &MemFiles, name: &str) -> Result<(), NoMemory> {
    match files.get(name) {
        Some(bytes) => write!(out, " {name} {:?}", str::from_utf8(bytes).unwrap_or(""))?,
        None => write!(out, " no {name}")?,
    }
    Ok(())
}

/// Files that hold what these fields say, each a name, a `=` and its text.
fn fill(files: &mut MemFiles, fields: &str) -> Result<(), NoMemory> {
    for field in fields.split('#') {
        let (name, text) = field.split_once('=').unwrap_or((field, ""));
        files.put(name, text.as_bytes())?;
    }
    Ok(())
}

/// Puts what each file of these fields holds, but for the model's.
fn put_files(out: &mut String, files: &MemFiles, fields: &str) -> Result<(), NoMemory> {
    for field in fields.split('#') {
        let (name, _) = field.split_once('=').unwrap_or((field, ""));
        if name != MODEL {
            put_held(out, files, name)?;
        }
    }
    Ok(())
}

/// A run of these fields: the numbers of the calls of the files that fail, how many bytes a failing write leaves, the
/// numbers of the calls of standard output that fail, its room, the room of standard error, the words, and the files.
pub(crate) fn put_run(alloc: Global, out: &mut String, fields: &str) -> Result<(), NoMemory> {
    let mut parts = fields.splitn(7, '#');
    let fails = numbers(alloc, parts.next().unwrap_or(""))?;
    let cut = parts.next().unwrap_or("").parse().unwrap_or(0);
    let mut files = MemFiles::new(alloc, fails, cut);
    let failing = parts.next().unwrap_or("");
    let room = parts.next().unwrap_or("").parse().unwrap_or(0);
    let mut told = sink(alloc, failing, room)?;
    let room = parts.next().unwrap_or("").parse().unwrap_or(0);
    let mut refused = sink(alloc, "", room)?;
    let words = parts.next().unwrap_or("");
    let held = parts.next().unwrap_or("");
    fill(&mut files, held)?;
    put_ended(alloc, out, words, &mut files, &mut told, &mut refused)?;
    put_held(out, &files, MODEL)?;
    put_files(out, &files, held)
}

/// A run over a file of so many line feeds.
pub(crate) fn put_long(alloc: Global, out: &mut String, len: &str) -> Result<(), NoMemory> {
    let text = vec![in alloc; b'\n'; len.parse().unwrap_or(0)]?;
    let mut files = MemFiles::new(alloc, Vec::new(alloc), 0);
    files.put("a.essence", text.as_slice())?;
    let mut told = sink(alloc, "", 99)?;
    let mut refused = sink(alloc, "", 99)?;
    put_ended(
        alloc,
        out,
        "modelling a.essence",
        &mut files,
        &mut told,
        &mut refused,
    )?;
    put_held(out, &files, MODEL)
}
