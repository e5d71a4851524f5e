// Runs over texts that stand in a line, with ` ## ` between each two.
use crate::lines::{put_run, words_of};
use ess_io::MemFiles;
use ess_rows::NoMemory;
use std::alloc::Global;
use std::fmt::Write;

const JUDGING: &str = "validate-solution --essence E --param P --solution S";

const PARAMETER: &str = "translate-parameter --eprime M --essence-param P --eprime-param Q";

const SOLUTION: &str =
    "translate-solution --eprime M --essence-param P --eprime-solution C --essence-solution Q";

const MODEL: &str = "conjure-output/model000001.eprime";

/// Puts what a file holds, where it is there.
fn put_written(out: &mut String, files: &MemFiles, name: &str) -> Result<(), NoMemory> {
    if let Some(bytes) = files.get(name) {
        write!(out, " {:?}", str::from_utf8(bytes).unwrap_or(""))?;
    }
    Ok(())
}

/// Judges a solution: the texts are those of a specification, a parameter file and a solution file.
pub(crate) fn put_verdict(alloc: Global, out: &mut String, texts: &str) -> Result<(), NoMemory> {
    let (essence, rest) = texts.split_once(" ## ").unwrap_or((texts, ""));
    let (param, solution) = rest.split_once(" ## ").unwrap_or((rest, ""));
    let mut files = MemFiles::new(alloc, Vec::new(alloc), 0);
    files.put("E", essence.as_bytes())?;
    files.put("P", param.as_bytes())?;
    files.put("S", solution.as_bytes())?;
    let words = words_of(alloc, JUDGING)?;
    put_run(alloc, out, &words, &mut files)
}

/// Translates: the texts are those of a model with its header and of a parameter file, and for a solution that of a file of cells. What
/// is written stands behind what is said.
pub(crate) fn put_translation(
    alloc: Global,
    out: &mut String,
    texts: &str,
) -> Result<(), NoMemory> {
    let (model, rest) = texts.split_once(" ## ").unwrap_or((texts, ""));
    let (param, cells) = match rest.split_once(" ## ") {
        Some((param, cells)) => (param, Some(cells)),
        None => (rest, None),
    };
    let mut files = MemFiles::new(alloc, Vec::new(alloc), 0);
    files.put("M", model.as_bytes())?;
    files.put("P", param.as_bytes())?;
    if let Some(cells) = cells {
        files.put("C", cells.as_bytes())?;
    }
    let command = if cells.is_some() { SOLUTION } else { PARAMETER };
    let words = words_of(alloc, command)?;
    put_run(alloc, out, &words, &mut files)?;
    put_written(out, &files, "Q")
}

/// The words by which a model is asked for, with a list of representations or without one.
fn modelling(alloc: Global, list: Option<&str>) -> Result<Vec<String>, NoMemory> {
    let mut words = words_of(alloc, "modelling E")?;
    if let Some(list) = list {
        words.push(String::from_str(alloc, "--use-repr")?)?;
        words.push(String::from_str(alloc, list)?)?;
    }
    Ok(words)
}

/// Writes a model: the texts are that of a specification and, where representations are named, their list. The model stands behind what
/// is said.
pub(crate) fn put_written_model(
    alloc: Global,
    out: &mut String,
    texts: &str,
) -> Result<(), NoMemory> {
    let (essence, list) = match texts.split_once(" ## ") {
        Some((essence, list)) => (essence, Some(list)),
        None => (texts, None),
    };
    let mut files = MemFiles::new(alloc, Vec::new(alloc), 0);
    files.put("E", essence.as_bytes())?;
    let words = modelling(alloc, list)?;
    put_run(alloc, out, &words, &mut files)?;
    put_written(out, &files, MODEL)
}
