//! Cases of the reader and the printer of models, as lines of the standard input: `WORD TEXT`. Each is answered by one line.
//! A line feed is written `\n`, in the texts of cases and of answers. What a word asks is said in `cases`.
#![tactic(auto)]

mod cases;
mod models;
mod texts;

use std::io;

fn main(rt: HostRuntime) -> io::Result<()> {
    for line in rt.lines(rt.alloc()) {
        let line = line?;
        let answer = cases::answer(rt.alloc(), line.as_str());
        rt.println(cases::said(rt.alloc(), answer)?)?;
    }
    Ok(())
}
