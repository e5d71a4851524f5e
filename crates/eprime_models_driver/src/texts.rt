use ess_rows::NoMemory;
use std::alloc::Global;

/// A text with a line feed in place of each `\n`.
pub fn with_line_feeds(alloc: Global, text: &str) -> Result<String, NoMemory> {
    let mut out = String::new(alloc);
    put_replaced(&mut out, text, "\\n", "\n")?;
    Ok(out)
}

/// Puts a text with `\n` in place of each line feed.
pub fn put_in_line(out: &mut String, text: &str) -> Result<(), NoMemory> {
    put_replaced(out, text, "\n", "\\n")
}

/// Puts a text with one part in place of another, wherever that stands.
fn put_replaced(out: &mut String, text: &str, from: &str, to: &str) -> Result<(), NoMemory> {
    for (index, part) in text.split(from).enumerate() {
        if index > 0 {
            out.push_str(to)?;
        }
        out.push_str(part)?;
    }
    Ok(())
}
