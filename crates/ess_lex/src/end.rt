ghost use Rattle.std.specs.Prelude.{◌≡◌};
ghost use Rattle.ess_grammar.specs.Places.{lines_before, bytes_in_line, end_place};

use ess_rows::Place;

/// The end of a text: one column past its last byte, or 1:1 where it has none.
pub fn end_place(text: &[u8]) -> Place
    ensures { result ≡ end_place text.now }
{
    if text.is_empty() {
        return Place::new(1, 1);
    }
    let front = &text[..text.len() - 1];
    Place::new(
        line_feeds(front) as u64 + 1,
        (bytes_in_line(front) as u64).saturating_add(2),
    )
}

/// How many line feeds the text has.
fn line_feeds(text: &[u8]) -> usize
    ensures { result ≡ lines_before text.now }
{
    text.iter().filter(|byte| **byte == b'\n').count()
}

/// How many bytes stand behind the last line feed.
fn bytes_in_line(text: &[u8]) -> usize
    ensures { result ≡ bytes_in_line text.now }
{
    text.iter().rev().take_while(|byte| **byte != b'\n').count()
}
