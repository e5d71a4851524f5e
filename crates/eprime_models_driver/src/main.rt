//! Cases of models in Essence Prime and of texts of cells, as lines of the standard input: a word, and behind it the texts that it
//! asks of, with ` ## ` between each two. Each is answered by one line. A line feed is written `\n`, in the texts of cases and of
//! answers. What a word asks is said in `cases`.
#![tactic(auto)]

mod cases;
mod cells;
mod domains;
mod lettings;
mod models;
mod numbers;
mod refusals;
mod tables;
mod texts;
mod verdicts;

use ess_rows::NoMemory;
use std::io;

fn main(rt: HostRuntime) -> io::Result<()> {
    for line in rt.lines(rt.alloc()) {
        match cases::answer(rt.alloc(), line?.as_str()) {
            Ok(text) => println!(rt; "{text}")?,
            Err(NoMemory) => return Err(io::ErrorKind::OutOfMemory.into()),
        }
    }
    Ok(())
}
