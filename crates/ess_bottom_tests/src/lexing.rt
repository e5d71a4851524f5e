// Tokens, loads and words outside the subset.
use crate::shown::put;
use ess_lex::{LexNo, Lexer, Token, end_place, first_outside, load};
use ess_rows::{NoMemory, Place};
use std::alloc::Global;

/// The kinds of a text's tokens, up to the end or a refusal.
pub(crate) fn kinds(out: &mut String, text: &[u8]) -> Result<(), NoMemory> {
    let mut lexer = Lexer::new(text);
    for _ in 0..u64::MAX {
        let Ok(Some(token)) = lexer.next() else {
            break;
        };
        put(out, &token.kind)?;
    }
    Ok(())
}

/// A place as its line and its column.
fn shown(place: Place) -> (u32, u32) {
    (place.line, place.col)
}

/// The text with a byte 255 for each back quote.
fn with_bytes_255(alloc: Global, text: &[u8]) -> Result<Vec<u8>, NoMemory> {
    let mut bytes = Vec::new(alloc);
    for byte in text {
        bytes.push(if *byte == b'`' { 255 } else { *byte })?;
    }
    Ok(bytes)
}

/// A token with its slice and its place.
fn put_token(out: &mut String, token: &Token) -> Result<(), NoMemory> {
    put(out, &token.kind)?;
    put(out, &str::from_utf8(token.text).unwrap_or(""))?;
    put(out, &shown(token.place))
}

/// What `next` answers behind the last token.
fn put_end(out: &mut String, lexer: &mut Lexer) -> Result<(), NoMemory> {
    put(out, &lexer.next().err())
}

/// The tokens of a text with their slices and places, the end of the text, and what comes behind the last token, twice.
pub(crate) fn tokens(alloc: Global, out: &mut String, text: &[u8]) -> Result<(), NoMemory> {
    let text = with_bytes_255(alloc, text)?;
    let mut lexer = Lexer::new(&text);
    for _ in 0..u64::MAX {
        let Ok(Some(token)) = lexer.next() else {
            break;
        };
        put_token(out, &token)?;
    }
    put(out, &shown(end_place(&text)))?;
    put_end(out, &mut lexer)?;
    put_end(out, &mut lexer)
}

/// A text again and again.
fn put_often(out: &mut String, text: &str, count: u32) -> Result<(), NoMemory> {
    for _ in 0..count {
        out.push_str(text)?;
    }
    Ok(())
}

/// A place that was found.
fn put_found(out: &mut String, answer: Result<Option<Place>, LexNo>) -> Result<(), NoMemory> {
    match answer {
        Ok(place) => put(out, &place.map(shown)),
        Err(no) => put(out, &no),
    }
}

/// The load of a text of six fields: how often the third and the fifth stand there, what stands before the third, the
/// third, what stands between, the fifth, and what stands behind it.
pub(crate) fn load_of(alloc: Global, out: &mut String, fields: &str) -> Result<(), NoMemory> {
    let mut parts = fields.split('#');
    let count = parts.next().unwrap_or("").parse().unwrap_or(0);
    let mut text = String::new(alloc);
    put_often(&mut text, parts.next().unwrap_or(""), 1)?;
    put_often(&mut text, parts.next().unwrap_or(""), count)?;
    put_often(&mut text, parts.next().unwrap_or(""), 1)?;
    put_often(&mut text, parts.next().unwrap_or(""), count)?;
    put_often(&mut text, parts.next().unwrap_or(""), 1)?;
    put_found(out, load(text.as_bytes()))
}

/// Where the first word outside the subset stands.
pub(crate) fn outside(out: &mut String, text: &[u8]) -> Result<(), NoMemory> {
    put_found(out, first_outside(text))
}
