//! Cases of meanings, as lines of the standard input: an expression whose meaning doesn't wait for types. Each is answered by
//! its value, by `nothing`, or by `big` where a number lies outside 64 bits.
#![tactic(auto)]

use ess_core::{Env, Ex, NoMemory, Row, Stm, Text};
use ess_eval::{EvalNo, value};
use ess_parse::read_spec;
use ess_values::print_val;
use std::alloc::{AllocError, Global};
use std::io;

/// The answer to an expression.
fn meaning(alloc: Global, ex: &Ex) -> Result<Text, NoMemory> {
    let env = Env {
        types: Row::new(alloc),
        vals: Row::new(alloc),
    };
    match value(alloc, ex, &env) {
        Ok(Some(val)) => print_val(alloc, &val, &env),
        Ok(None) => Text::from_str(alloc, "nothing"),
        Err(EvalNo::NoMemory) => Err(NoMemory),
        Err(_) => Text::from_str(alloc, "big"),
    }
}

/// The answer to the expression of a letting.
fn letting(alloc: Global, stm: Option<&Stm>) -> Result<Text, NoMemory> {
    match stm {
        Some(Stm::LetEx(_, ex)) => meaning(alloc, ex.get()),
        _ => Text::from_str(alloc, "no expression"),
    }
}

/// The answer to the text of an expression.
fn answer(alloc: Global, text: &str) -> Result<Text, NoMemory> {
    let mut line = Text::from_str(alloc, "letting x be ")?;
    line.push_str(text)?;
    match read_spec(alloc, line.as_bytes()) {
        Ok(spec) => letting(alloc, spec.stms.first()),
        Err(_) => Text::from_str(alloc, "not read"),
    }
}

/// The answer as a line.
fn said(alloc: Global, answer: Result<Text, NoMemory>) -> Result<String, AllocError> {
    match answer {
        Ok(text) => Ok(text.into_string()),
        Err(NoMemory) => String::from_str(alloc, "no memory"),
    }
}

fn main(rt: HostRuntime) -> io::Result<()> {
    for line in rt.lines(rt.alloc()) {
        let line = line?;
        let answer = answer(rt.alloc(), line.as_str());
        rt.println(said(rt.alloc(), answer)?)?;
    }
    Ok(())
}
