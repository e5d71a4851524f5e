// The reader of the small grammar.
ghost use Rattle.std.specs.Prelude.{◌≡◌, ◌≤◌, ◌<◌, ◌^◌, length, MatchOption, ◌∷◌, Some, None, IfOk, IsErrOf};
ghost use Rattle.std.specs.Option.{option_map};
ghost use Rattle.std.specs.List.{list_all};
ghost use Rattle.conjure_cli_laws.specs.SmallGrammar.{is_letter, is_digit, is_name_byte, is_name, value_from, lines_of};
ghost use Rattle.conjure_cli.specs.Reading.{run_len, behind, name_at, number_at, find_at, such_that_at, line_at};
ghost use Rattle.conjure_cli.specs.Reading.{is_in_line, read_lines};
ghost use Rattle.conjure_cli.specs.Lines.{statement, statements};

use crate::line::Line;
use crate::model::ModelNo;
use crate::words::is_word;
use std::alloc::Global;

fn is_letter(byte: u8) -> bool
    ensures { result ≡ is_letter byte }
{
    byte.is_ascii_alphabetic()
}

fn is_digit(byte: u8) -> bool
    ensures { result ≡ is_digit byte }
{
    byte.is_ascii_digit()
}

fn is_name_byte(byte: u8) -> bool
    ensures { result ≡ is_name_byte byte }
{
    is_letter(byte) || is_digit(byte)
}

fn are_name_bytes(bytes: &[u8]) -> bool
    ensures { result ≡ list_all is_name_byte bytes.now }
{
    bytes.iter().all(|byte| is_name_byte(*byte))
}

/// A letter, then letters and digits, and no word of the language.
#[tactic(auto, using(crate::proofs::Scans::name_of))]
fn is_name(name: &[u8]) -> bool
    ensures { result ≡ is_name name.now }
{
    match name.split_first() {
        Some((first, rest)) => is_letter(*first) && are_name_bytes(rest) && !is_word(name),
        None => false,
    }
}

/// How many bytes of a name the text begins with.
fn name_len(text: &[u8]) -> usize
    ensures len { result ≡ run_len is_name_byte text.now }
    ensures within { result ≤ length text.now }
{
    for (i, byte) in text.iter().enumerate() {
        if !is_name_byte(*byte) {
            return i;
        }
    }
    text.len()
}

/// How many digits the text begins with.
fn digits_len(text: &[u8]) -> usize
    ensures len { result ≡ run_len is_digit text.now }
    ensures within { result ≤ length text.now }
{
    for (i, byte) in text.iter().enumerate() {
        if !is_digit(*byte) {
            return i;
        }
    }
    text.len()
}

/// The value of some digits, where it is below 2^63.
fn value_of(digits: &[u8]) -> Option<u64>
    ensures { MatchOption result (2 ^ 63 ≤ value_from 0 digits.now) (λ n. (n ≡ value_from 0 digits.now) × (n < 2 ^ 63)) }
{
    let mut value: u64 = 0;
    for digit in digits {
        let Some(tens) = value.checked_mul(10) else {
            return None;
        };
        let Some(next) = tens.checked_add(digit.saturating_sub(b'0') as u64) else {
            return None;
        };
        value = next;
    }
    if value <= i64::MAX as u64 {
        Some(value)
    } else {
        None
    }
}

/// What follows the piece.
#[tactic(auto, using(crate::proofs::Scans::stripped))]
fn behind<'a>(piece: &[u8], text: &'a [u8]) -> Option<&'a [u8]>
    ensures { option_map (λ rest. rest.now) result ≡ behind piece.now text.now }
{
    text.strip_prefix(piece)
}

/// The name that the text begins with, as long as it can be, and what follows it.
#[tactic(auto, unfolding(crate::specs::Reading::name_at))]
fn name_at(text: &[u8]) -> Option<(&[u8], &[u8])>
    ensures { option_map (λ found. (found.0.now, found.1.now)) result ≡ name_at text.now }
{
    let (name, rest) = text.split_at(name_len(text));
    if is_name(name) {
        Some((name, rest))
    } else {
        None
    }
}

/// The number that the text begins with, and what follows its digits.
#[tactic(auto, using(crate::proofs::Scans::number_from_fits, crate::proofs::Scans::number_from_large, crate::proofs::Scans::number_from_none), unfolding(crate::specs::Reading::number_at))]
fn number_at(text: &[u8]) -> Option<(u64, &[u8])>
    ensures { option_map (λ found. (found.0, found.1.now)) result ≡ number_at text.now }
{
    let (digits, rest) = text.split_at(digits_len(text));
    if digits.is_empty() {
        return None;
    }
    let value = value_of(digits)?;
    Some((value, rest))
}

/// What stands behind `find `.
#[tactic(auto, using(crate::proofs::Scans::at_end_not), unfolding(crate::specs::Reading::find_at))]
fn find_at(text: &[u8]) -> Option<Line<'_>>
    ensures { option_map statement result ≡ find_at text.now }
{
    let (name, rest) = name_at(text)?;
    let rest = behind(b" : set of int(", rest)?;
    let (low, rest) = number_at(rest)?;
    let rest = behind(b"..", rest)?;
    let (high, rest) = number_at(rest)?;
    let rest = behind(b")", rest)?;
    if rest.is_empty() {
        Some(Line::Find { name, low, high })
    } else {
        None
    }
}

/// What stands behind `such that `.
#[tactic(auto, unfolding(crate::specs::Reading::such_that_at))]
fn such_that_at(text: &[u8]) -> Option<Line<'_>>
    ensures { option_map statement result ≡ such_that_at text.now }
{
    let (number, rest) = number_at(text)?;
    let name = behind(b" in ", rest)?;
    if is_name(name) {
        Some(Line::SuchThat { number, name })
    } else {
        None
    }
}

/// What the line says.
#[tactic(auto, unfolding(crate::specs::Reading::line_at, crate::specs::Reading::otherwise))]
fn line_at(line: &[u8]) -> Option<Line<'_>>
    ensures { option_map statement result ≡ line_at line.now }
{
    match behind(b"find ", line) {
        Some(rest) => find_at(rest),
        None => such_that_at(behind(b"such that ", line)?),
    }
}

/// How many bytes stand before the first line feed.
fn line_len(text: &[u8]) -> usize
    ensures len { result ≡ run_len is_in_line text.now }
    ensures within { result ≤ length text.now }
{
    for (i, byte) in text.iter().enumerate() {
        if *byte == b'\n' {
            return i;
        }
    }
    text.len()
}

/// The first line of a text that isn't empty, and what follows the line feed that ends it.
fn first_line(text: &[u8]) -> (&[u8], &[u8])
    requires { 0 < length text.now }
    ensures lines { lines_of text.now ≡ result.0.now ∷ lines_of result.1.now }
    ensures shorter { length result.1.now < length text.now }
{
    let (line, rest) = text.split_at(line_len(text));
    match rest.split_first() {
        Some((_, after)) => (line, after),
        None => (line, rest),
    }
}

/// What the lines of the text say, or `NotYet` where one says nothing.
pub(crate) fn read_lines(alloc: Global, text: &[u8]) -> Result<Vec<Line<'_>>, ModelNo>
    ensures ok { IfOk result (λ lines. read_lines (lines_of text.now) ≡ Some (statements lines.items)) }
    ensures not_yet { IsErrOf result ModelNo.NotYet → read_lines (lines_of text.now) ≡ None }
{
    let mut lines = Vec::new(alloc);
    let mut rest = text;
    while !rest.is_empty() {
        let (line, after) = first_line(rest);
        let Some(found) = line_at(line) else {
            return Err(ModelNo::NotYet);
        };
        lines.push(found)?;
        rest = after;
    }
    Ok(lines)
}
