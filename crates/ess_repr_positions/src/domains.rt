//! Domains with positions.
ghost use Rattle.std.specs.Prelude.{◌≡◌, map, IfOk};
ghost use Rattle.ess_semantics.specs.Domains.{named};
ghost use Rattle.ess_semantics.specs.Positions.{domain_with_positions as positions_put};
ghost use Rattle.ess_eval_domains.specs.ClosedViews.{pure_closed, pure_field_closed};
ghost use Rattle.ess_repr_positions.specs.Placed.{placed_closed, placed_field_closed};

use crate::shared::{both, number_of};
use ess_core::{Boxed, NoMemory, Row, Text};
use ess_eval_domains::{Attribute, Closed, FieldClosed, Span};
use std::alloc::Global;

/// The domain with positions in place of named types: a type of n values becomes `int(1..n)`. `NoMemory` where there is no room for it,
/// or a type's size lies above the numbers of 64 bits.
#[cycle(domains)]
#[tactic(auto, using(crate::proofs::PlacedDomains::kinds))]
pub fn domain_with_positions(alloc: Global, domain: &Closed) -> Result<Closed, NoMemory>
    ensures { IfOk result (λ d. pure_closed d ≡ positions_put (pure_closed domain.now)) }
{
    match domain {
        Closed::Bool => Ok(Closed::Bool),
        Closed::Int(spans) => Ok(Closed::Int(Row::from_slice(alloc, spans.as_slice())?)),
        Closed::Named(name, count) => numbers_to(alloc, name, *count),
        Closed::Tuple(parts) => match several(alloc, parts.as_slice()) {
            Ok(parts) => Ok(Closed::Tuple(parts)),
            Err(no) => Err(no),
        },
        Closed::Rec(fields) => match placed_fields(alloc, fields.as_slice()) {
            Ok(fields) => Ok(Closed::Rec(fields)),
            Err(no) => Err(no),
        },
        Closed::Matrix(axes, item) => {
            let axes = several(alloc, axes.as_slice());
            let (axes, item) = both(axes, boxed(alloc, item.get()))?;
            Ok(Closed::Matrix(axes, item))
        }
        Closed::Set(own, member) => {
            let (own, member) = both(attributes(alloc, own), boxed(alloc, member.get()))?;
            Ok(Closed::Set(own, member))
        }
        Closed::MSet(own, member) => {
            let (own, member) = both(attributes(alloc, own), boxed(alloc, member.get()))?;
            Ok(Closed::MSet(own, member))
        }
        Closed::Function(own, from, to) => {
            let ends = both(boxed(alloc, from.get()), boxed(alloc, to.get()));
            let (own, (from, to)) = both(attributes(alloc, own), ends)?;
            Ok(Closed::Function(own, from, to))
        }
        Closed::Relation(own, parts) => {
            let parts = several(alloc, parts.as_slice());
            let (own, parts) = both(attributes(alloc, own), parts)?;
            Ok(Closed::Relation(own, parts))
        }
        Closed::Partition(own, member) => {
            let (own, member) = both(attributes(alloc, own), boxed(alloc, member.get()))?;
            Ok(Closed::Partition(own, member))
        }
    }
}

/// The same in a box.
#[cycle(domains)]
fn boxed(alloc: Global, domain: &Closed) -> Result<Boxed<Closed>, NoMemory>
    ensures { IfOk result (λ d. pure_closed d ≡ placed_closed domain.now) }
{
    match domain_with_positions(alloc, domain) {
        Ok(domain) => Boxed::new(alloc, domain),
        Err(no) => Err(no),
    }
}

/// The same of each of several domains.
#[cycle(domains)]
#[tactic(auto, using(crate::proofs::PlacedDomains::closeds_more, crate::proofs::PlacedDomains::closeds_all))]
fn several(alloc: Global, domains: &[Closed]) -> Result<Row<Closed>, NoMemory>
    ensures { IfOk result (λ ds. map pure_closed ds ≡ map placed_closed domains.now) }
{
    let mut all = Row::with_capacity(alloc, domains.len())?;
    for domain in domains {
        match domain_with_positions(alloc, domain) {
            Ok(domain) => all.push(domain)?,
            Err(no) => return Err(no),
        }
    }
    Ok(all)
}

/// The same of the domains of fields.
#[cycle(domains)]
#[tactic(auto, using(crate::proofs::PlacedDomains::fields_more, crate::proofs::PlacedDomains::fields_all))]
fn placed_fields(alloc: Global, fields: &[FieldClosed]) -> Result<Row<FieldClosed>, NoMemory>
    ensures { IfOk result (λ fs. map pure_field_closed fs ≡ map placed_field_closed fields.now) }
{
    let mut all = Row::with_capacity(alloc, fields.len())?;
    for field in fields {
        match placed_one(alloc, field) {
            Ok(field) => all.push(field)?,
            Err(no) => return Err(no),
        }
    }
    Ok(all)
}

/// The same of a field's domain.
#[cycle(domains)]
#[tactic(auto, using(crate::proofs::PlacedDomains::field_placed))]
fn placed_one(alloc: Global, field: &FieldClosed) -> Result<FieldClosed, NoMemory>
    ensures { IfOk result (λ f. pure_field_closed f ≡ placed_field_closed field.now) }
{
    match both(
        field.name.copy(alloc),
        domain_with_positions(alloc, &field.domain),
    ) {
        Ok((name, domain)) => Ok(FieldClosed { name, domain }),
        Err(no) => Err(no),
    }
}

/// The numbers from 1 to a type's size.
#[tactic(auto, using(crate::proofs::PlacedDomains::numbers_made))]
fn numbers_to(alloc: Global, name: &Text, count: u64) -> Result<Closed, NoMemory>
    ensures { IfOk result (λ d. pure_closed d ≡ positions_put (named name.now count)) }
{
    let last = number_of(count)?;
    let spans = Row::from_array(
        alloc,
        [Span {
            low: Some(1),
            high: Some(last),
        }],
    )?;
    Ok(Closed::Int(spans))
}

/// A copy of attributes.
fn attributes(alloc: Global, own: &Row<Attribute>) -> Result<Row<Attribute>, NoMemory>
    ensures { IfOk result (λ ks. ks ≡ own.now) }
{
    Row::from_slice(alloc, own.as_slice())
}
