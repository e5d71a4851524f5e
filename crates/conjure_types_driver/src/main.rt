//! The message of each refusal, and then cases of the judgements, as lines of the standard input: a specification in one line.
//! Each is answered by `ok`, by the message of the first statement that fails one, or by `not read`.
#![tactic(auto)]

use ess_parse::read_spec;
use ess_types::{TypeNo, check};
use std::alloc::{AllocError, Global};
use std::io;

/// The message of a refusal.
fn message(alloc: Global, why: &TypeNo) -> Result<String, AllocError> {
    let mut out = String::new(alloc);
    match write!(out, "{}", why) {
        Ok(()) => Ok(out),
        Err(_) => Err(AllocError),
    }
}

/// The answer to a specification.
fn answer(alloc: Global, text: &str) -> Result<String, AllocError> {
    let Ok(spec) = read_spec(alloc, text.as_bytes()) else {
        return String::from_str(alloc, "not read");
    };
    match check(alloc, spec) {
        Ok(_) => String::from_str(alloc, "ok"),
        Err(why) => message(alloc, &why),
    }
}

fn main(rt: HostRuntime) -> io::Result<()> {
    let refusals = [
        TypeNo::UnknownName(1),
        TypeNo::DoubleName(2),
        TypeNo::IllTyped(3),
        TypeNo::NotFinite(4),
        TypeNo::NotEnumerable(5),
        TypeNo::OpenGiven(4294967295),
        TypeNo::NoMemory,
    ];
    for why in &refusals {
        rt.println(message(rt.alloc(), why)?)?;
    }
    for line in rt.lines(rt.alloc()) {
        let line = line?;
        rt.println(answer(rt.alloc(), line.as_str())?)?;
    }
    Ok(())
}
