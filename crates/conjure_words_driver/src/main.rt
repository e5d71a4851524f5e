//! Cases of the words of the command line, as lines of the standard input: each word behind a `|`. Each is answered by the
//! command that the words ask for, or by `usage`.
#![tactic(auto)]

use conjure_cli_words::{Command, Options, WordsNo, words_of};
use ess_rows::{NoMemory, Text};
use std::alloc::{AllocError, Global};
use std::io;

/// A name with a value in quotes.
fn put(out: &mut Text, name: &str, value: &Text) -> Result<(), NoMemory> {
    out.push_str(name)?;
    out.push_str("='")?;
    out.push_str(value.as_str())?;
    out.push_str("'")
}

/// The folder, the file and the list of `modelling`.
fn modelling(
    out: &mut Text,
    folder: &Text,
    file: &Text,
    options: &Options,
) -> Result<(), NoMemory> {
    out.push_str("modelling")?;
    put(out, " DIR", folder)?;
    put(out, " FILE", file)?;
    match &options.use_repr {
        Some(list) => put(out, " LIST", list),
        None => out.push_str(" LIST=none"),
    }
}

/// The command as text.
fn said(out: &mut Text, command: &Command) -> Result<(), NoMemory> {
    match command {
        Command::Modelling(folder, file, options) => modelling(out, folder, file, options),
        Command::Parameter(model, from, to) => {
            out.push_str("translate-parameter")?;
            put(out, " M", model)?;
            put(out, " P", from)?;
            put(out, " Q", to)
        }
        Command::Solution(model, param, from, to) => {
            out.push_str("translate-solution")?;
            put(out, " M", model)?;
            put(out, " P", param)?;
            put(out, " C", from)?;
            put(out, " S", to)
        }
        Command::Validate(essence, param, solution) => {
            out.push_str("validate-solution")?;
            put(out, " E", essence)?;
            put(out, " P", param)?;
            put(out, " S", solution)
        }
        Command::Selftest(number) => {
            out.push_str("selftest ")?;
            out.push_u64(*number)
        }
    }
}

/// The answer to words, each behind a `|`.
fn answer(alloc: Global, line: &str) -> Result<Text, NoMemory> {
    let mut words = Vec::new(alloc);
    for word in line.split('|').skip(1) {
        words.push(String::from_str(alloc, word)?)?;
    }
    let mut out = Text::new(alloc);
    match words_of(alloc, words.as_slice()) {
        Ok(command) => said(&mut out, &command)?,
        Err(WordsNo::Usage) => out.push_str("usage")?,
        Err(WordsNo::NoMemory) => return Err(NoMemory),
    }
    Ok(out)
}

/// The answer as a line.
fn told(alloc: Global, answer: Result<Text, NoMemory>) -> Result<String, AllocError> {
    match answer {
        Ok(text) => Ok(text.into_string()),
        Err(NoMemory) => String::from_str(alloc, "no memory"),
    }
}

fn main(rt: HostRuntime) -> io::Result<()> {
    for line in rt.lines(rt.alloc()) {
        let line = line?;
        let answer = answer(rt.alloc(), line.as_str());
        rt.println(told(rt.alloc(), answer)?)?;
    }
    Ok(())
}
