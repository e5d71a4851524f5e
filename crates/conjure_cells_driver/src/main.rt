//! Cases of cells and of members, as lines of the standard input: a representation and a domain, with ` ## ` between them, or
//! `member `, an expression and a domain. A representation is answered by the number of its cells, or by `too many: ` and the
//! number where it is above 2^24, an expression by whether its value is a member; both by `undefined` and `big`.
#![tactic(auto)]

use ess_core::{Dom, Env, Ex, NoMemory, Row, Stm};
use ess_domains::{EvalNo, cells, member};
use ess_eval::value;
use ess_parse::{read_dom, read_repr, read_spec};
use std::alloc::Global;
use std::fmt::Write;
use std::io;

/// Puts the answer to a representation and a domain.
fn put_answer(alloc: Global, out: &mut String, repr: &str, dom: &str) -> Result<(), NoMemory> {
    let env = Env {
        types: Row::new(alloc),
        vals: Row::new(alloc),
    };
    let Ok(repr) = read_repr(alloc, repr.as_bytes()) else {
        return Ok(write!(out, "not read")?);
    };
    let Ok(dom) = read_dom(alloc, dom.as_bytes()) else {
        return Ok(write!(out, "not read")?);
    };
    put_count(out, cells(alloc, &repr, &dom, &env))
}

/// Puts a count, or why there is none.
fn put_count(out: &mut String, count: Result<u64, EvalNo>) -> Result<(), NoMemory> {
    match count {
        Ok(count) => write!(out, "{count}")?,
        Err(EvalNo::TooManyCells(count)) => write!(out, "too many: {count}")?,
        Err(EvalNo::Undefined) => write!(out, "undefined")?,
        Err(EvalNo::Big) => write!(out, "big")?,
        Err(EvalNo::NoMemory) => return Err(NoMemory),
    }
    Ok(())
}

/// Puts whether the value of an expression is a member of a domain.
fn put_membership(alloc: Global, out: &mut String, dom: &Dom, ex: &Ex) -> Result<(), NoMemory> {
    let env = Env {
        types: Row::new(alloc),
        vals: Row::new(alloc),
    };
    match value(alloc, ex, &env) {
        Ok(Some(val)) => put_verdict(out, member(alloc, dom, &env, &val)),
        _ => Ok(write!(out, "no value")?),
    }
}

/// Puts whether a value is a member, or why there is no answer.
fn put_verdict(out: &mut String, verdict: Result<bool, EvalNo>) -> Result<(), NoMemory> {
    match verdict {
        Ok(true) => write!(out, "true")?,
        Ok(false) => write!(out, "false")?,
        Err(EvalNo::Undefined) => write!(out, "undefined")?,
        Err(EvalNo::NoMemory) => return Err(NoMemory),
        Err(_) => write!(out, "big")?,
    }
    Ok(())
}

/// Puts the answer to the texts of an expression and a domain.
fn put_member(alloc: Global, out: &mut String, ex: &str, dom: &str) -> Result<(), NoMemory> {
    let mut letting = String::from_str(alloc, "letting x be ")?;
    letting.push_str(ex)?;
    let Ok(dom) = read_dom(alloc, dom.as_bytes()) else {
        return Ok(write!(out, "not read")?);
    };
    let Ok(spec) = read_spec(alloc, letting.as_bytes()) else {
        return Ok(write!(out, "not read")?);
    };
    match spec.stms.first() {
        Some(Stm::LetEx(_, ex)) => put_membership(alloc, out, &dom, ex.get()),
        _ => Ok(write!(out, "no expression")?),
    }
}

/// The answer to a line.
fn answer(alloc: Global, line: &str) -> Result<String, NoMemory> {
    let (front, dom) = line.split_once(" ## ").unwrap_or((line, ""));
    let mut out = String::new(alloc);
    match front.strip_prefix("member ") {
        Some(ex) => put_member(alloc, &mut out, ex, dom)?,
        None => put_answer(alloc, &mut out, front, dom)?,
    }
    Ok(out)
}

fn main(rt: HostRuntime) -> io::Result<()> {
    for line in rt.lines(rt.alloc()) {
        match answer(rt.alloc(), line?.as_str()) {
            Ok(text) => println!(rt; "{text}")?,
            Err(NoMemory) => return Err(io::ErrorKind::OutOfMemory.into()),
        }
    }
    Ok(())
}
