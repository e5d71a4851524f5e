//! The language line of a model.
ghost use Rattle.std.specs.Prelude.{◌≡◌, true, false};
ghost use Rattle.ess_semantics.specs.Values.{Text};
ghost use Rattle.ess_grammar.specs.Kinds.{token};
ghost use Rattle.ess_grammar.specs.Tokens.{lexed};
ghost use Rattle.ess_lex.specs.Lexing.{left, IsNatural};
ghost use Rattle.ess_translate_header_laws.specs.Headers.{language_line, BeginsWithTokens};
ghost use Rattle.ess_translate_header_laws.specs.LanguageLines.{IsNext, IsNotNext};
ghost use Rattle.ess_translate_header_lines.specs.LanguageParts.{part_token, is_part};

use ess_lex::{Kind, Lexer};

/// The tokens of the language line.
#[derive(Clone, Copy)]
pub(crate) enum Part {
    /// `language`
    Word,
    /// `ESSENCE'`
    Prime,
    /// `1`
    FirstNumber,
    /// `.`
    Dot,
    /// `0`
    SecondNumber,
}

/// Whether a text begins with the language line of a model, `language ESSENCE' 1.0`.
#[tactic(auto, using(crate::proofs::LanguageParts::language_line_parts))]
pub(crate) fn begins_with_language_line(text: &[u8]) -> bool
    ensures yes { result ≡ true → BeginsWithTokens language_line (lexed text.now) }
    ensures no { result ≡ false → BeginsWithTokens language_line (lexed text.now) → ⊥ }
{
    let mut lexer = Lexer::new(text);
    next_is(&mut lexer, Part::Word)
        && next_is(&mut lexer, Part::Prime)
        && next_is(&mut lexer, Part::FirstNumber)
        && next_is(&mut lexer, Part::Dot)
        && next_is(&mut lexer, Part::SecondNumber)
}

/// Whether the next token is this one.
fn next_is(lexer: &mut Lexer, part: Part) -> bool
    ensures yes { result ≡ true → IsNext (part_token part) (left lexer.old) (left lexer.new) }
    ensures no { result ≡ false → IsNotNext (part_token part) (left lexer.old) }
{
    match lexer.next() {
        Ok(Some(token)) => is_part(part, token.kind),
        Ok(None) => false,
        Err(_) => false,
    }
}

/// Whether a kind is that of this token.
fn is_part(part: Part, kind: Kind) -> bool
    requires { IsNatural kind }
    ensures { (bytes : Text) → result ≡ is_part part (token kind bytes) }
{
    match part {
        Part::Word => matches!(kind, Kind::Language),
        Part::Prime => matches!(kind, Kind::PrimeWord),
        Part::FirstNumber => matches!(kind, Kind::Num(1)),
        Part::Dot => matches!(kind, Kind::Dot),
        Part::SecondNumber => matches!(kind, Kind::Num(0)),
    }
}
