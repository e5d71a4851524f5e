ghost use Rattle.std.specs.Prelude.{◌≡◌, ◌+◌, ◌<◌, ◌≤◌, length, take, drop, slice_index, IfOk, IfNone, IfSome, OnErr};
ghost use Rattle.ess_grammar.specs.Places.{lines_before, bytes_in_line, place};
ghost use Rattle.ess_grammar.specs.Tokens.{lexed, BeginsPlain};

use crate::Kind;
use crate::bytes::is_white;
use crate::scan::{Found, first_token};
use ess_rows::Place;

/// A token of a text.
#[derive(Clone, Copy, Debug)]
pub struct Token<'a> {
    /// Which word, symbol, name or number it is.
    pub kind: Kind,
    /// The token's slice of the text.
    pub text: &'a [u8],
    /// Where its first byte stands.
    pub place: Place,
}

/// Why a text has no further tokens.
#[derive(Clone, Copy, Debug, PartialEq, Eq)]
pub enum LexNo {
    /// At this place stands a byte that begins no token.
    BadByte(Place),
    /// At this place begins a number above 2^63 - 1.
    WideNumber(Place),
}

/// A text that is read token by token.
#[derive(Clone, Copy, Debug)]
pub struct Lexer<'a> {
    text: &'a [u8],
    at: usize,
    line_feeds: usize,
    line_start: usize,
    ghost within: { at ≤ length text.now },
    ghost lines: { lines_before (take at text.now) ≡ line_feeds },
    ghost columns: { line_start + bytes_in_line (take at text.now) ≡ at },
}

impl<'a> Lexer<'a> {
    ghost use Rattle.ess_lex.specs.Lexing.{left, answered, passed, rest, IsNatural};

    /// A lexer at the beginning of a text.
    pub fn new(text: &'a [u8]) -> Lexer<'a>
        ensures { left result ≡ lexed text.entry.now }
    {
        Lexer {
            text,
            at: 0,
            line_feeds: 0,
            line_start: 0,
        }
    }

    /// The next token, or None exactly at the end of the text. White space and comments are passed
    /// over. After a refusal every later call gives the same refusal.
    pub fn next(&mut self) -> Result<Option<Token<'a>>, LexNo>
        ensures next { answered result (left self.new) ≡ left self.old }
        ensures end { IfOk result (λ token. IfNone token (left self.new ≡ left self.old)) }
        ensures refused { OnErr result (left self.new ≡ left self.old) }
        ensures natural { IfOk result (λ token. IfSome token (λ t. IsNatural t.kind)) }
    {
        self.skip_blank();
        if self.at == self.text.len() {
            return Ok(None);
        }
        let rest = &self.text[self.at..];
        let place = self.place();
        match first_token(rest) {
            Found::Token(kind, len) => {
                self.advance(len);
                Ok(Some(Token {
                    kind,
                    text: &rest[..len],
                    place,
                }))
            }
            Found::BadByte => Err(LexNo::BadByte(place)),
            Found::WideNumber => Err(LexNo::WideNumber(place)),
        }
    }

    /// The place of the next byte.
    fn place(&self) -> Place
        requires { self.now.at < length self.now.text.now }
        ensures { result ≡ place (passed self.now) }
    {
        Place::new(
            self.line_feeds as u64 + 1,
            (self.at - self.line_start) as u64 + 1,
        )
    }

    /// Passes some bytes of the text that are no line feeds.
    fn advance(&mut self, len: usize)
        requires within { len ≤ length (rest self.old) }
        requires one_line { lines_before (take len (rest self.old)) ≡ 0 }
        ensures text { self.new.text ≡ self.old.text }
        ensures at { self.new.at ≡ self.old.at + len }
    {
        self.at += len;
    }

    /// Passes the next byte.
    fn pass(&mut self)
        requires { self.old.at < length self.old.text.now }
        ensures text { self.new.text ≡ self.old.text }
        ensures at { self.new.at ≡ self.old.at + 1 }
    {
        let byte = self.text[self.at];
        self.at += 1;
        if byte == b'\n' {
            self.line_feeds += 1;
            self.line_start = self.at;
        }
    }

    /// Passes white space and comments.
    fn skip_blank(&mut self)
        ensures text { self.new.text ≡ self.old.text }
        ensures left { left self.new ≡ left self.old }
        ensures plain { self.new.at < length self.new.text.now → BeginsPlain (rest self.new) }
    {
        let mut comment = false;
        while self.at < self.text.len() {
            let byte = self.text[self.at];
            if comment {
                comment = byte != b'\n';
            } else if byte == b'$' {
                comment = true;
            } else if !is_white(byte) {
                return;
            }
            self.pass();
        }
    }
}
