use ess_rows::{NoMemory, Text};
use std::alloc::Global;

/// A text with line feeds in place of each `\n`.
pub fn with_line_feeds(alloc: Global, text: &str) -> Result<Text, NoMemory> {
    replaced(alloc, text, "\\n", "\n")
}

/// A text with `\n` in place of each line feed.
pub fn without_line_feeds(alloc: Global, text: &str) -> Result<Text, NoMemory> {
    replaced(alloc, text, "\n", "\\n")
}

/// A text with one part in place of another, wherever that stands.
fn replaced(alloc: Global, text: &str, from: &str, to: &str) -> Result<Text, NoMemory> {
    let mut out = Text::new(alloc);
    for (index, part) in text.split(from).enumerate() {
        if index > 0 {
            out.push_str(to)?;
        }
        out.push_str(part)?;
    }
    Ok(out)
}
