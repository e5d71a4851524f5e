ghost use Rattle.std.specs.Prelude.{◌≡◌, None, Some, MatchResult};
ghost use Rattle.ess_parse.specs.Refusals.{refused_first};

use crate::refusal::ReadNo;

/// Passes a text that isn't refused before its grammar is looked at, whatever the grammar is. It takes no memory.
///
/// `BadByte` and `WideNumber` come exactly where the lexer refuses the text, else `Unsupported` exactly where it has a word
/// outside the subset of the language, at the first one, else `TooDeep` exactly where its load rises above 250, at the
/// first token at which it does.
pub fn pass_first(text: &[u8]) -> Result<(), ReadNo>
    ensures { MatchResult result (λ _. refused_first text.now ≡ None) (λ no. refused_first text.now ≡ Some no) }
{
    if let Some(place) = ess_lex::first_outside(text)? {
        return Err(ReadNo::Unsupported(place));
    }
    if let Some(place) = ess_lex::load(text)? {
        return Err(ReadNo::TooDeep(place));
    }
    Ok(())
}
