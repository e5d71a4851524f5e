//! The lines of the header, one after the other.
ghost use Rattle.std.specs.Prelude.{◌≡◌, None, Some, IfOk, MatchOption, true};
ghost use Rattle.std.specs.List.{position_or_len};
ghost use Rattle.ess_grammar.specs.Places.{is_line_feed};
ghost use Rattle.ess_grammar.specs.Tokens.{lexed};
ghost use Rattle.ess_grammar.specs.ModelTexts.{first_line, next_lines, behind_mark, header_lines};
ghost use Rattle.eprime_read_headers.specs.FrontTokens.{is_free_for};

use crate::language_end::behind_language_line;
use ess_rows::{NoMemory, Row, Text};
use std::alloc::Global;

/// How many bytes stand before the next line feed.
pub(crate) fn line_len(text: &[u8]) -> usize
    ensures { result ≡ position_or_len is_line_feed text.now }
{
    text.iter().take_while(|byte| **byte != b'\n').count()
}

/// The bytes before the next line feed.
fn first_line(text: &[u8]) -> &[u8]
    ensures { result.now ≡ first_line text.now }
{
    &text[..line_len(text)]
}

/// The bytes behind the next line feed.
#[tactic(auto, using(crate::proofs::MarkedLines::nothing_behind))]
fn next_lines(text: &[u8]) -> &[u8]
    ensures { result.now ≡ next_lines text.now }
{
    let len = line_len(text);
    if len < text.len() {
        &text[len + 1..]
    } else {
        &text[text.len()..]
    }
}

/// What stands in a line behind `$ `, where the line begins so.
fn behind_mark(line: &[u8]) -> Option<&[u8]>
    ensures { MatchOption result (behind_mark line.now ≡ None) (λ l. behind_mark line.now ≡ Some l.now) }
{
    match line {
        [b'$', b' ', rest @ ..] => Some(rest),
        _ => None,
    }
}

/// The lines of the header of a model's text: those under its language line that begin with `$ `, each without these two
/// bytes, up to the first that doesn't or isn't UTF-8. The lexer may refuse none of the text's first five tokens; what it
/// says of those behind them doesn't matter. `NoMemory` where there is no room for the lines.
pub fn header_lines(alloc: Global, text: &[u8]) -> Result<Row<Text>, NoMemory>
    requires { is_free_for 5 (lexed text.now) ≡ true }
    ensures { IfOk result (λ lines. lines ≡ header_lines text.now) }
{
    let mut lines = Row::new(alloc);
    let mut rest = next_lines(behind_language_line(text));
    while let Some(bytes) = behind_mark(first_line(rest)) {
        let Ok(line) = std::str::from_utf8(bytes) else {
            return Ok(lines);
        };
        lines.push(Text::from_str(alloc, line)?)?;
        rest = next_lines(rest);
    }
    Ok(lines)
}
