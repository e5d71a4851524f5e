ghost use Rattle.std.specs.Prelude.{◌≡◌};
ghost use Rattle.ess_grammar.specs.Words.{is_outside};
ghost use Rattle.ess_grammar.specs.Kinds.{token};
ghost use Rattle.ess_grammar.specs.Tokens.{lexed, first_outside};
ghost use Rattle.ess_grammar.specs.Load.{too_deep};
ghost use Rattle.ess_lex.specs.Lexing.{found_in};

use crate::Kind;
use crate::lexer::{LexNo, Lexer, Token};
use crate::stack::Stack;
use crate::tables::is_outside_word;
use ess_rows::Place;

/// Where a text is nested too deeply: the place of the first token at which its load is above 250,
/// or None. A refusal of the lexer anywhere in the text comes first.
pub fn load(text: &[u8]) -> Result<Option<Place>, LexNo>
    ensures { result ≡ found_in too_deep (lexed text.now) }
{
    let mut lexer = Lexer::new(text);
    let mut stack = Stack::new();
    let mut found = None;
    while let Some(token) = lexer.next()? {
        if found.is_none() && !stack.load(token.kind) {
            found = Some(token.place);
        }
    }
    Ok(found)
}

/// Where a text has a word outside the subset: the place of the first, or None. A refusal of the
/// lexer anywhere in the text comes first.
pub fn first_outside(text: &[u8]) -> Result<Option<Place>, LexNo>
    ensures { result ≡ found_in first_outside (lexed text.now) }
{
    let mut lexer = Lexer::new(text);
    let mut found = None;
    while let Some(token) = lexer.next()? {
        if found.is_none() && is_outside(&token) {
            found = Some(token.place);
        }
    }
    Ok(found)
}

/// Is the token a word outside the subset?
fn is_outside(found: &Token) -> bool
    ensures { result ≡ is_outside (token found.now.kind found.now.text.now) }
{
    match found.kind {
        Kind::Name => is_outside_word(found.text),
        _ => false,
    }
}
