//! The end of the language line: the bytes behind the fifth token.
ghost use Rattle.std.specs.Prelude.{◌≡◌, true};
ghost use Rattle.ess_grammar.specs.Tokens.{is_white, lexed, BeginsPlain};
ghost use Rattle.ess_grammar.specs.ModelTexts.{behind_language_line};
ghost use Rattle.eprime_read_headers.specs.FrontTokens.{is_free_for, FrontToken};

use crate::lines::line_len;
use ess_lex::Lexer;

/// Is the byte white space?
fn is_white(byte: u8) -> bool
    ensures { result ≡ is_white byte }
{
    byte == b' ' || byte == b'\t' || byte == b'\r' || byte == b'\n'
}

/// How many bytes the token has with which a text begins that isn't refused there.
fn token_len(text: &[u8]) -> usize
    requires plain { BeginsPlain text.now }
    requires free { is_free_for 1 (lexed text.now) ≡ true }
    ensures { FrontToken text.now result }
{
    let mut lexer = Lexer::new(text);
    match lexer.next() {
        Ok(Some(token)) => token.text.len(),
        Ok(None) => 0,
        Err(_) => 0,
    }
}

/// The bytes behind the fifth token of a text, the last one of a language line.
pub(crate) fn behind_language_line(text: &[u8]) -> &[u8]
    requires { is_free_for 5 (lexed text.now) ≡ true }
    ensures { result.now ≡ behind_language_line text.now }
{
    let mut tokens: usize = 5;
    let mut rest = text;
    while tokens > 0 && !rest.is_empty() {
        if is_white(rest[0]) {
            rest = &rest[1..];
        } else if rest[0] == b'$' {
            rest = &rest[line_len(rest)..];
        } else {
            rest = &rest[token_len(rest)..];
            tokens -= 1;
        }
    }
    rest
}
