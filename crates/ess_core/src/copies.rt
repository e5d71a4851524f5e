//! Copies of trees. Each `copy` answers a tree that equals its source, or `NoMemory` where there is no room for it.
ghost use Rattle.std.specs.Prelude.{◌≡◌, IfOk, Ok};

use ess_rows::{Boxed, NoMemory, Row, Text};
use std::alloc::Global;

mod domains;
mod expressions;
mod representations;
mod statements;
mod types;
mod values;

/// A copy in a box.
fn boxed<A: Drop>(alloc: Global, copy: Result<A, NoMemory>) -> Result<Boxed<A>, NoMemory>
    ensures { IfOk result (λ b. copy ≡ Ok b) }
{
    match copy {
        Ok(copy) => Boxed::new(alloc, copy),
        Err(no) => Err(no),
    }
}

/// Two copies beside each other.
fn both<A: Drop, B: Drop>(
    first: Result<A, NoMemory>,
    second: Result<B, NoMemory>,
) -> Result<(A, B), NoMemory>
    ensures first { IfOk result (λ p. first ≡ Ok p.0) }
    ensures second { IfOk result (λ p. second ≡ Ok p.1) }
{
    match first {
        Ok(first) => match second {
            Ok(second) => Ok((first, second)),
            Err(no) => {
                drop(first);
                Err(no)
            }
        },
        Err(no) => {
            drop(second);
            Err(no)
        }
    }
}

fn copy_texts(alloc: Global, texts: &Row<Text>) -> Result<Row<Text>, NoMemory>
    ensures { IfOk result (λ ts. ts ≡ texts.now) }
{
    let mut copies = Row::with_capacity(alloc, texts.len())?;
    for text in texts.as_slice() {
        match text.copy(alloc) {
            Ok(copy) => copies.push(copy)?,
            Err(no) => return Err(no),
        }
    }
    Ok(copies)
}
