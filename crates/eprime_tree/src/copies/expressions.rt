ghost use Rattle.std.specs.Prelude.{◌≡◌, IfOk};

use crate::{PDom, PEx, PGen, PList, PRange};
use ess_rows::{Boxed, NoMemory, Row};
use std::alloc::Global;

impl PEx {
    /// A copy, which equals this expression. `NoMemory` where there is no room for it.
    #[cycle(copy)]
    pub fn copy(&self, alloc: Global) -> Result<PEx, NoMemory>
        ensures { IfOk result (λ e. e ≡ self.now) }
    {
        match self {
            PEx::Num(number) => Ok(PEx::Num(*number)),
            PEx::Truth(truth) => Ok(PEx::Truth(*truth)),
            PEx::Name(name) => Ok(PEx::Name(name.copy(alloc)?)),
            PEx::Cell(name, at) => Ok(PEx::Cell(name.copy(alloc)?, copy_exs(alloc, at)?)),
            PEx::One(op, a) => Ok(PEx::One(*op, Boxed::new(alloc, a.get().copy(alloc)?)?)),
            PEx::Two(op, a, b) => Ok(PEx::Two(
                *op,
                Boxed::new(alloc, a.get().copy(alloc)?)?,
                Boxed::new(alloc, b.get().copy(alloc)?)?,
            )),
            PEx::Fold(word, list) => Ok(PEx::Fold(*word, list.copy(alloc)?)),
            PEx::Lex(op, a, b) => Ok(PEx::Lex(*op, a.copy(alloc)?, b.copy(alloc)?)),
        }
    }
}

impl PList {
    /// A copy, which equals this list. `NoMemory` where there is no room for it.
    #[cycle(copy)]
    pub fn copy(&self, alloc: Global) -> Result<PList, NoMemory>
        ensures { IfOk result (λ l. l ≡ self.now) }
    {
        match self {
            PList::Items(items) => Ok(PList::Items(copy_exs(alloc, items)?)),
            PList::Comp(body, gens) => {
                Ok(PList::Comp(
                    Boxed::new(alloc, body.get().copy(alloc)?)?,
                    copy_gens(alloc, gens)?,
                ))
            }
        }
    }
}

impl PGen {
    /// A copy, which equals this generator or condition. `NoMemory` where there is no room for it.
    #[cycle(copy)]
    pub fn copy(&self, alloc: Global) -> Result<PGen, NoMemory>
        ensures { IfOk result (λ g. g ≡ self.now) }
    {
        match self {
            PGen::Over(name, dom) => Ok(PGen::Over(name.copy(alloc)?, dom.copy(alloc)?)),
            PGen::If(ex) => Ok(PGen::If(ex.copy(alloc)?)),
        }
    }
}

impl PDom {
    /// A copy, which equals this domain. `NoMemory` where there is no room for it.
    #[cycle(copy)]
    pub fn copy(&self, alloc: Global) -> Result<PDom, NoMemory>
        ensures { IfOk result (λ d. d ≡ self.now) }
    {
        match self {
            PDom::Bool => Ok(PDom::Bool),
            PDom::Int(ranges) => Ok(PDom::Int(copy_ranges(alloc, ranges)?)),
        }
    }
}

impl PRange {
    /// A copy, which equals this range. `NoMemory` where there is no room for it.
    #[cycle(copy)]
    pub fn copy(&self, alloc: Global) -> Result<PRange, NoMemory>
        ensures { IfOk result (λ r. r ≡ self.now) }
    {
        match self {
            PRange::One(ex) => Ok(PRange::One(ex.copy(alloc)?)),
            PRange::Span(low, high) => Ok(PRange::Span(
                copy_maybe(alloc, low)?,
                copy_maybe(alloc, high)?,
            )),
        }
    }
}

#[cycle(copy)]
fn copy_maybe(alloc: Global, ex: &Option<PEx>) -> Result<Option<PEx>, NoMemory>
    ensures { IfOk result (λ o. o ≡ ex.now) }
{
    match ex {
        None => Ok(None),
        Some(ex) => Ok(Some(ex.copy(alloc)?)),
    }
}

#[cycle(copy)]
fn copy_exs(alloc: Global, exs: &Row<PEx>) -> Result<Row<PEx>, NoMemory>
    ensures { IfOk result (λ es. es ≡ exs.now) }
{
    let mut copies = Row::with_capacity(alloc, exs.len())?;
    for ex in exs.as_slice() {
        copies.push(ex.copy(alloc)?)?;
    }
    Ok(copies)
}

#[cycle(copy)]
fn copy_gens(alloc: Global, gens: &Row<PGen>) -> Result<Row<PGen>, NoMemory>
    ensures { IfOk result (λ gs. gs ≡ gens.now) }
{
    let mut copies = Row::with_capacity(alloc, gens.len())?;
    for item in gens.as_slice() {
        copies.push(item.copy(alloc)?)?;
    }
    Ok(copies)
}

#[cycle(copy)]
fn copy_ranges(alloc: Global, ranges: &Row<PRange>) -> Result<Row<PRange>, NoMemory>
    ensures { IfOk result (λ rs. rs ≡ ranges.now) }
{
    let mut copies = Row::with_capacity(alloc, ranges.len())?;
    for range in ranges.as_slice() {
        copies.push(range.copy(alloc)?)?;
    }
    Ok(copies)
}
