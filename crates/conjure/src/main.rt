//! Conjure, from the command line.
#![tactic(auto)]

use conjure_cli::{Status, run};
use ess_io::{DiskFiles, StdSink};
use std::process::ExitCode;
use std::{env, io};

/// The words after the program's name.
fn words(rt: &HostRuntime) -> io::Result<Vec<String>> {
    let mut words = Vec::new(rt.alloc());
    for word in env::args(rt)?.skip(1) {
        words.push(word)?;
    }
    Ok(words)
}

/// The status where the words can't be had: the system didn't hand them over as text, or memory ran out.
fn status_without_words(error: &io::Error) -> Status {
    match error.kind() {
        io::ErrorKind::OutOfMemory => Status(6),
        _ => Status(2),
    }
}

fn main(rt: HostRuntime) -> ExitCode {
    let status = match words(&rt) {
        Ok(words) => {
            let mut files = DiskFiles::new(&rt);
            let mut out = StdSink::new(rt.stdout());
            let mut err = StdSink::new(rt.stderr());
            run(rt.alloc(), &words, &mut files, &mut out, &mut err)
        }
        Err(error) => status_without_words(&error),
    };
    ExitCode::from(status.0)
}
