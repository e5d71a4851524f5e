use crate::texts::with_line_feeds;
use ess_rows::{NoMemory, Text};
use ess_translate_header::{HeadNo, read_header, write_header};
use ess_translate_header_lines::{HeaderLines, read_header_lines, write_header_lines};
use std::alloc::{AllocError, Global};

/// The header with which a text begins, written again, and whether it is one of this tool.
pub fn answer(alloc: Global, case: &str) -> Result<Text, NoMemory> {
    let text = with_line_feeds(alloc, case)?;
    let mut lines = lines_again(alloc, text.as_bytes())?;
    let verdict = verdict(alloc, text.as_bytes(), &lines)?;
    lines.push_str(verdict.as_str())?;
    Ok(lines)
}

/// The lines of a header, written again.
fn lines_again(alloc: Global, text: &[u8]) -> Result<Text, NoMemory> {
    match read_header_lines(alloc, text)? {
        Some(HeaderLines { statements, reprs }) => {
            let lines = write_header_lines(alloc, statements.as_slice(), reprs.as_slice())?;
            joined(alloc, lines.as_slice())
        }
        None => Text::from_str(alloc, "no header"),
    }
}

/// Whether a text begins with a header of this tool: ` ours` where it has these lines when it is written again, and else those lines.
fn verdict(alloc: Global, text: &[u8], lines: &Text) -> Result<Text, NoMemory> {
    match read_header(alloc, text) {
        Ok(header) => {
            let written = write_header(alloc, &header)?;
            let again = joined(alloc, written.as_slice())?;
            if again.as_bytes() == lines.as_bytes() {
                Text::from_str(alloc, " ours")
            } else {
                Ok(again)
            }
        }
        Err(HeadNo::HeaderBad) => Text::from_str(alloc, " not ours"),
        Err(HeadNo::NoMemory) => Err(NoMemory),
    }
}

/// The lines, each with `|` behind it.
fn joined(alloc: Global, lines: &[Text]) -> Result<Text, NoMemory> {
    let mut out = Text::new(alloc);
    for line in lines {
        out.push_str(line.as_str())?;
        out.push_str("|")?;
    }
    Ok(out)
}

/// An answer as a line.
pub fn said(alloc: Global, answer: Result<Text, NoMemory>) -> Result<String, AllocError> {
    match answer {
        Ok(text) => Ok(text.into_string()),
        Err(NoMemory) => String::from_str(alloc, "no memory"),
    }
}
