use crate::texts::without_line_feeds;
use eprime_read::{ReadNo, read_model};
use eprime_tree::{PModel, print_model};
use ess_rows::{NoMemory, Place, Text};
use std::alloc::Global;

/// A refusal, by its name and its place.
fn at(alloc: Global, name: &str, place: Place) -> Result<Text, NoMemory> {
    let mut out = Text::from_str(alloc, name)?;
    out.push_str(" ")?;
    out.push_u64(place.line as u64)?;
    out.push_str(":")?;
    out.push_u64(place.col as u64)?;
    Ok(out)
}

/// Why a text isn't read.
fn refusal(alloc: Global, why: ReadNo) -> Result<Text, NoMemory> {
    match why {
        ReadNo::BadByte(place) => at(alloc, "BadByte", place),
        ReadNo::WideNumber(place) => at(alloc, "WideNumber", place),
        ReadNo::Unsupported(place) => at(alloc, "Unsupported", place),
        ReadNo::TooDeep(place) => at(alloc, "TooDeep", place),
        ReadNo::Syntax(place) => at(alloc, "Syntax", place),
        ReadNo::NoMemory => Err(NoMemory),
    }
}

/// The text of a model, in one line.
fn printed(alloc: Global, model: &PModel) -> Result<Text, NoMemory> {
    let bytes = print_model(alloc, model)?;
    match std::str::from_utf8(bytes.as_slice()) {
        Ok(text) => without_line_feeds(alloc, text),
        Err(_) => Text::from_str(alloc, "no text"),
    }
}

/// The copy of a model, printed.
fn copied(alloc: Global, model: &PModel) -> Result<Text, NoMemory> {
    let copy = model.copy(alloc)?;
    let mut out = Text::from_str(alloc, if copy == *model { "equal " } else { "another " })?;
    out.push_str(printed(alloc, &copy)?.as_str())?;
    Ok(out)
}

/// The model of a text, printed again.
pub fn model(alloc: Global, text: &[u8]) -> Result<Text, NoMemory> {
    match read_model(alloc, text) {
        Ok(model) => printed(alloc, &model),
        Err(why) => refusal(alloc, why),
    }
}

/// The copy of the model of a text, printed.
pub fn copy(alloc: Global, text: &[u8]) -> Result<Text, NoMemory> {
    match read_model(alloc, text) {
        Ok(model) => copied(alloc, &model),
        Err(why) => refusal(alloc, why),
    }
}

/// Whether parts behind a language line are those of a model.
pub fn parts(alloc: Global, parts: &str) -> Result<Text, NoMemory> {
    let mut text = Text::from_str(alloc, "language ESSENCE' 1.0\n")?;
    text.push_str(parts)?;
    match read_model(alloc, text.as_bytes()) {
        Ok(_) => Text::from_str(alloc, "read"),
        Err(why) => refusal(alloc, why),
    }
}

/// Is the text read as a model?
fn is_read(alloc: Global, text: &[u8]) -> bool {
    read_model(alloc, text).is_ok()
}

/// The lengths of the beginnings, short of the whole text, that are models: `from` the first length of each run of them, `to`
/// the first behind it.
pub fn prefixes(alloc: Global, text: &[u8]) -> Result<Text, NoMemory> {
    let mut out = Text::from_str(alloc, "models")?;
    let mut before = false;
    for len in 0..text.len() {
        let now = is_read(alloc, &text[..len]);
        if now != before {
            out.push_str(if now { " from " } else { " to " })?;
            out.push_u64(len as u64)?;
        }
        before = now;
    }
    Ok(out)
}
