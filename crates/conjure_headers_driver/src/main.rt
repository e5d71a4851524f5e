//! Cases of the reader and the writer of headers, as lines of the standard input: the text of a model each, with `\n` for a line
//! feed. The answer is the lines of its header as they are written again, each with `|` behind it, or `no header`; then `ours` where
//! the header is one of this tool, and `not ours` where it isn't.
#![tactic(auto)]

mod cases;
mod texts;

use std::io;

fn main(rt: HostRuntime) -> io::Result<()> {
    for line in rt.lines(rt.alloc()) {
        let line = line?;
        let answer = cases::answer(rt.alloc(), line.as_str());
        rt.println(cases::said(rt.alloc(), answer)?)?;
    }
    Ok(())
}
