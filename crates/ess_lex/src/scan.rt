ghost use Rattle.std.specs.Prelude.{◌≡◌, ◌<◌, ◌≤◌, Some, true, IfSome, length, min, slice_index};
ghost use Rattle.std.specs.Option.{option_map};
ghost use Rattle.ess_grammar.specs.Kinds.{token};
ghost use Rattle.ess_grammar.specs.Tokens.{name_or_word, is_digit, is_letter, symbol_of, longest};
ghost use Rattle.ess_lex.specs.Scan.{token_at, IsFound};

use crate::Kind;
use crate::bytes::{begins_with_name_byte, digits_len, is_letter, name_len, number};
use crate::tables::{kind_in, lex_symbols_of_length, symbols_of_length, words_of_length};

/// What stands at the front of a text: a token of so many bytes, or why there is none.
#[derive(Clone, Copy, Debug, PartialEq, Eq)]
pub(crate) enum Found {
    Token(Kind, usize),
    BadByte,
    WideNumber,
}

/// The most bytes that a symbol has.
const LONGEST_SYMBOL: usize = 5;

/// The word of models and of texts of cells.
const PRIME_WORD: &[u8] = b"ESSENCE'";

/// The kind of a name or a word.
fn word_kind(text: &[u8]) -> Kind
    ensures { Some (token result text.now) ≡ name_or_word text.now }
{
    kind_in(words_of_length(text.len()), text).unwrap_or(Kind::Name)
}

/// The symbol that the text is, where `rest` follows it.
fn symbol_kind(text: &[u8], rest: &[u8]) -> Option<Kind>
    ensures { option_map (λ k. token k text.now) result ≡ symbol_of text.now rest.now }
{
    let kind = kind_in(symbols_of_length(text.len()), text);
    if kind.is_some() || begins_with_name_byte(rest) {
        return kind;
    }
    kind_in(lex_symbols_of_length(text.len()), text)
}

/// The longest symbol at the front of the text.
fn symbol(text: &[u8]) -> Option<(Kind, usize)>
    ensures { token_at text.now result ≡ longest symbol_of (min (length text.now) 5) text.now }
{
    let mut len = text.len().min(LONGEST_SYMBOL);
    while len > 0 {
        let (front, rest) = text.split_at(len);
        if let Some(kind) = symbol_kind(front, rest) {
            return Some((kind, len));
        }
        len -= 1;
    }
    None
}

/// The word, the name or `ESSENCE'` at the front of a text that begins with a letter or `_`.
fn name(text: &[u8]) -> Found
    requires some { 0 < length text.now }
    requires letter { is_letter (slice_index text.now 0) ≡ true }
    ensures { IsFound result text.now }
{
    if text.starts_with(PRIME_WORD) {
        return Found::Token(Kind::PrimeWord, PRIME_WORD.len());
    }
    let len = name_len(text);
    Found::Token(word_kind(&text[..len]), len)
}

/// The number at the front of a text that begins with a digit.
fn digits(text: &[u8]) -> Found
    requires some { 0 < length text.now }
    requires digit { is_digit (slice_index text.now 0) ≡ true }
    ensures { IsFound result text.now }
{
    let len = digits_len(text);
    match number(&text[..len]) {
        Some(value) => Found::Token(Kind::Num(value), len),
        None => Found::WideNumber,
    }
}

/// The longest token at the front of a text that has a byte.
pub(crate) fn first_token(text: &[u8]) -> Found
    requires { 0 < length text.now }
    ensures { IsFound result text.now }
{
    let first = text[0];
    if is_letter(first) {
        return name(text);
    }
    if first.is_ascii_digit() {
        return digits(text);
    }
    match symbol(text) {
        Some((kind, len)) => Found::Token(kind, len),
        None => Found::BadByte,
    }
}
