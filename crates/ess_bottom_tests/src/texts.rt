// Texts that grow.
use crate::shown::put;
use ess_rows::{NoMemory, Text};
use std::alloc::Global;

/// A call that wants memory; the text stays as it was where there is none.
fn grow(text: &mut Text, call: &str, given: &str) -> Result<(), NoMemory> {
    match call {
        "byte" => text.push_byte(given.parse::<u8>().unwrap_or(0) % 128),
        "u64" => text.push_u64(given.parse().unwrap_or(0)),
        "i64" => text.push_i64(given.parse().unwrap_or(0)),
        _ => text.push_str(given),
    }
}

/// One call on the text, what it answers, and the text then with its length.
fn called(alloc: Global, out: &mut String, text: &mut Text, call: &str) -> Result<(), NoMemory> {
    let (name, given) = call.split_once(' ').unwrap_or((call, ""));
    let before = text.copy(alloc)?;
    let answer = grow(text, name, given);
    if answer.is_err() && *text == before {
        return Err(NoMemory);
    }
    put(out, &answer)?;
    put(out, &text.as_str())?;
    put(out, &text.len())
}

/// The first field is a text, and each other one a call on it: what each answers, and the text then.
pub(crate) fn changed(alloc: Global, out: &mut String, fields: &str) -> Result<(), NoMemory> {
    let (first, calls) = fields.split_once('#').unwrap_or((fields, ""));
    let mut text = Text::from_str(alloc, first)?;
    for call in calls.split('#') {
        called(alloc, out, &mut text, call)?;
    }
    put_same(alloc, out, &text)?;
    through_string(alloc, out, text)
}

/// Whether a text is equal to what is made of it, and whether it is empty.
fn put_same(alloc: Global, out: &mut String, text: &Text) -> Result<(), NoMemory> {
    put(out, &copied(alloc, text)?)?;
    put(out, &read(alloc, text)?)?;
    put(out, &ascii(alloc, text)?)?;
    put(out, &Text::new(alloc).is_empty())?;
    put(out, &text.is_empty())
}

/// Whether a text is equal to its copy.
fn copied(alloc: Global, text: &Text) -> Result<bool, NoMemory> {
    Ok(text.copy(alloc)? == *text)
}

/// Whether it is equal to the text of its characters.
fn read(alloc: Global, text: &Text) -> Result<bool, NoMemory> {
    Ok(Text::from_str(alloc, text.as_str())? == *text)
}

/// Whether its bytes are ASCII, and it is equal to the text of them.
fn ascii(alloc: Global, text: &Text) -> Result<bool, NoMemory> {
    if !text.as_bytes().is_ascii() {
        return Ok(false);
    }
    Ok(Text::from_ascii(alloc, text.as_bytes())? == *text)
}

/// Its `String`, and the text of that.
fn through_string(alloc: Global, out: &mut String, text: Text) -> Result<(), NoMemory> {
    let copy = text.copy(alloc)?;
    let string = text.into_string();
    put(out, &string)?;
    put(out, &(Text::from_string(string) == copy))
}
