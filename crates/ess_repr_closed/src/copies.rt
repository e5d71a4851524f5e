//! Copies of domains, in rows and boxes.
ghost use Rattle.std.specs.Prelude.{◌≡◌, [], ◌∷◌, ◌++◌, map, IfOk, OnOk, Ok};
ghost use Rattle.ess_semantics.specs.Domains.{domain_list};
ghost use Rattle.ess_eval_domains.specs.ClosedViews.{pure_closed, pure_field_closed, domains_of as domains_in};

use ess_core::{Boxed, NoMemory, Row};
use ess_eval_domains::{Closed, FieldClosed};
use std::alloc::Global;

/// A copy, which equals the domain. `NoMemory` where there is no room for it.
#[cycle(copy_closed)]
pub fn copy(alloc: Global, domain: &Closed) -> Result<Closed, NoMemory>
    ensures { IfOk result (λ d. d ≡ domain.now) }
{
    match domain {
        Closed::Bool => Ok(Closed::Bool),
        Closed::Int(spans) => {
            let spans = Row::from_slice(alloc, spans.as_slice())?;
            Ok(Closed::Int(spans))
        }
        Closed::Named(name, count) => {
            let name = name.copy(alloc)?;
            Ok(Closed::Named(name, *count))
        }
        Closed::Tuple(parts) => match several(alloc, parts.as_slice()) {
            Ok(parts) => Ok(Closed::Tuple(parts)),
            Err(no) => Err(no),
        },
        Closed::Rec(fields) => match copy_fields(alloc, fields.as_slice()) {
            Ok(fields) => Ok(Closed::Rec(fields)),
            Err(no) => Err(no),
        },
        Closed::Matrix(axes, item) => {
            let item = in_box(alloc, copy(alloc, item.get()));
            let (axes, item) = both(several(alloc, axes.as_slice()), item)?;
            Ok(Closed::Matrix(axes, item))
        }
        Closed::Set(own, member) => {
            let member = in_box(alloc, copy(alloc, member.get()));
            let (own, member) = both(Row::from_slice(alloc, own.as_slice()), member)?;
            Ok(Closed::Set(own, member))
        }
        Closed::MSet(own, member) => {
            let member = in_box(alloc, copy(alloc, member.get()));
            let (own, member) = both(Row::from_slice(alloc, own.as_slice()), member)?;
            Ok(Closed::MSet(own, member))
        }
        Closed::Function(own, from, to) => {
            let from = in_box(alloc, copy(alloc, from.get()));
            let to = in_box(alloc, copy(alloc, to.get()));
            let own = Row::from_slice(alloc, own.as_slice());
            let (own, (from, to)) = both(own, both(from, to))?;
            Ok(Closed::Function(own, from, to))
        }
        Closed::Relation(own, parts) => {
            let own = Row::from_slice(alloc, own.as_slice());
            let (own, parts) = both(own, several(alloc, parts.as_slice()))?;
            Ok(Closed::Relation(own, parts))
        }
        Closed::Partition(own, member) => {
            let member = in_box(alloc, copy(alloc, member.get()));
            let (own, member) = both(Row::from_slice(alloc, own.as_slice()), member)?;
            Ok(Closed::Partition(own, member))
        }
    }
}

/// Copies of the domains.
#[cycle(copy_closed)]
pub(crate) fn several(alloc: Global, domains: &[Closed]) -> Result<Row<Closed>, NoMemory>
    ensures { IfOk result (λ ds. ds ≡ domains.now) }
{
    let mut copies = Row::with_capacity(alloc, domains.len())?;
    for domain in domains {
        match copy(alloc, domain) {
            Ok(copy) => copies.push(copy)?,
            Err(no) => return Err(no),
        }
    }
    Ok(copies)
}

/// Copies of the fields.
#[cycle(copy_closed)]
fn copy_fields(alloc: Global, fields: &[FieldClosed]) -> Result<Row<FieldClosed>, NoMemory>
    ensures { IfOk result (λ fs. fs ≡ fields.now) }
{
    let mut copies = Row::with_capacity(alloc, fields.len())?;
    for field in fields {
        match copy_field(alloc, field) {
            Ok(copy) => copies.push(copy)?,
            Err(no) => return Err(no),
        }
    }
    Ok(copies)
}

/// A copy of a field.
#[cycle(copy_closed)]
fn copy_field(alloc: Global, field: &FieldClosed) -> Result<FieldClosed, NoMemory>
    ensures { IfOk result (λ f. f ≡ field.now) }
{
    match both(field.name.copy(alloc), copy(alloc, &field.domain)) {
        Ok((name, domain)) => Ok(FieldClosed { name, domain }),
        Err(no) => Err(no),
    }
}

/// A copy in a box.
fn in_box(alloc: Global, copy: Result<Closed, NoMemory>) -> Result<Boxed<Closed>, NoMemory>
    ensures { IfOk result (λ b. copy ≡ Ok b) }
{
    match copy {
        Ok(copy) => Boxed::new(alloc, copy),
        Err(no) => Err(no),
    }
}

/// Two copies beside each other.
fn both<A: Drop, B: Drop>(
    first: Result<A, NoMemory>,
    second: Result<B, NoMemory>,
) -> Result<(A, B), NoMemory>
    ensures first { IfOk result (λ p. first ≡ Ok p.0) }
    ensures second { IfOk result (λ p. second ≡ Ok p.1) }
{
    match first {
        Ok(first) => match second {
            Ok(second) => Ok((first, second)),
            Err(no) => {
                drop(first);
                Err(no)
            }
        },
        Err(no) => {
            drop(second);
            Err(no)
        }
    }
}

/// A copy of a domain in a box.
pub(crate) fn boxed(alloc: Global, domain: &Closed) -> Result<Boxed<Closed>, NoMemory>
    ensures { IfOk result (λ d. d ≡ domain.now) }
{
    match copy(alloc, domain) {
        Ok(copy) => Boxed::new(alloc, copy),
        Err(no) => Err(no),
    }
}

/// A copy of a domain, alone in a row.
pub(crate) fn one(alloc: Global, domain: &Closed) -> Result<Row<Closed>, NoMemory>
    ensures { IfOk result (λ ds. ds ≡ domain.now ∷ []) }
{
    match copy(alloc, domain) {
        Ok(copy) => Row::from_array(alloc, [copy]),
        Err(no) => Err(no),
    }
}

/// Puts a copy of a domain behind the others. `NoMemory` where there is no room for it.
fn push_copy(alloc: Global, domains: &mut Row<Closed>, domain: &Closed) -> Result<(), NoMemory>
    ensures { OnOk result (domains.new ≡ domains.old ++ domain.now ∷ []) }
{
    match copy(alloc, domain) {
        Ok(copy) => domains.push(copy),
        Err(no) => Err(no),
    }
}

/// Copies of two domains.
pub(crate) fn two(alloc: Global, first: &Closed, second: &Closed) -> Result<Row<Closed>, NoMemory>
    ensures { IfOk result (λ ds. ds ≡ first.now ∷ second.now ∷ []) }
{
    let mut domains = one(alloc, first)?;
    push_copy(alloc, &mut domains, second)?;
    Ok(domains)
}

/// Copies of the domains of the fields.
#[tactic(auto, using(crate::proofs::ChildRows::fields_more, crate::proofs::ChildRows::fields_all))]
pub(crate) fn domains_of(alloc: Global, fields: &[FieldClosed]) -> Result<Row<Closed>, NoMemory>
    ensures { IfOk result (λ ds. map pure_closed ds ≡ domain_list (domains_in (map (λ f. f.1) (map pure_field_closed fields.now)))) }
{
    let mut copies = Row::with_capacity(alloc, fields.len())?;
    for field in fields {
        push_copy(alloc, &mut copies, &field.domain)?;
    }
    Ok(copies)
}
