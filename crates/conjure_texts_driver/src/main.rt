//! Cases of the readers and printers of specifications and values, as lines of the standard input: `WORD TEXT`. Each is
//! answered by one line. A line feed in a text is written `\n`. What a word asks is said in `cases`.
#![tactic(auto)]

mod cases;
mod specifications;
mod types;
mod values;

use std::io;

fn main(rt: HostRuntime) -> io::Result<()> {
    for line in rt.lines(rt.alloc()) {
        let line = line?;
        let answer = cases::answer(rt.alloc(), line.as_str());
        rt.println(cases::said(rt.alloc(), answer)?)?;
    }
    Ok(())
}
