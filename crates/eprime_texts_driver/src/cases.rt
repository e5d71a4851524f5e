use crate::models;
use crate::texts::with_line_feeds;
use ess_rows::{NoMemory, Text};
use std::alloc::{AllocError, Global};

/// The answer to a case:
///
/// - `model TEXT`: the model that is read, printed again, or why none is read;
/// - `copy TEXT`: the copy of the model that is read, printed, behind `equal` where it equals the model;
/// - `parts TEXT`: whether a model with these parts behind its language line is read, or why not;
/// - `prefixes TEXT`: how long the beginnings of the text are that are read as models.
pub fn answer(alloc: Global, case: &str) -> Result<Text, NoMemory> {
    let Some((word, rest)) = case.split_once(' ') else {
        return Text::from_str(alloc, "no case");
    };
    let text = with_line_feeds(alloc, rest)?;
    match word {
        "model" => models::model(alloc, text.as_bytes()),
        "copy" => models::copy(alloc, text.as_bytes()),
        "parts" => models::parts(alloc, text.as_str()),
        "prefixes" => models::prefixes(alloc, text.as_bytes()),
        _ => Text::from_str(alloc, "no such case"),
    }
}

/// An answer as a line.
pub fn said(alloc: Global, answer: Result<Text, NoMemory>) -> Result<String, AllocError> {
    match answer {
        Ok(text) => Ok(text.into_string()),
        Err(NoMemory) => String::from_str(alloc, "no memory"),
    }
}
