//! A number that the number of members of a finite domain never exceeds.
ghost use Rattle.std.specs.Prelude.{◌≡◌, suc, map, length, ◌*◌, ◌^◌, IfOk};
ghost use Rattle.ess_semantics.specs.Domains.{integers, member_list};
ghost use Rattle.ess_semantics.specs.Sizes.{bound as bound_meant, product_bound};
ghost use Rattle.ess_eval_domains.specs.ClosedViews.{pure_span, pure_closed, pure_closeds, pure_field_closed, domains_of};

use crate::sizes::{counted, occurrences};
use ess_core::NoMemory;
use ess_eval_domains::{Closed, FieldClosed, Span, number_members};
use std::alloc::Global;

/// The bound of a domain. `NoMemory` where it can't be counted, or the members of an int domain in it can't be listed.
#[cycle(bounds)]
#[tactic(auto, using(crate::proofs::BoundForms::bound_named, crate::proofs::BoundForms::bound_int, crate::proofs::BoundForms::bound_tuple, crate::proofs::BoundForms::bound_record, crate::proofs::BoundForms::bound_matrix, crate::proofs::BoundForms::bound_set, crate::proofs::BoundForms::bound_mset, crate::proofs::BoundForms::bound_function, crate::proofs::BoundForms::bound_relation, crate::proofs::BoundForms::bound_partition))]
pub fn bound(alloc: Global, domain: &Closed) -> Result<usize, NoMemory>
    ensures { IfOk result (λ n. n ≡ bound_meant (pure_closed domain.now)) }
{
    match domain {
        Closed::Bool => Ok(2),
        Closed::Int(spans) => count_of_numbers(alloc, spans.as_slice()),
        Closed::Named(_, count) => counted(*count),
        Closed::Tuple(parts) => bounds_product(alloc, parts.as_slice()),
        Closed::Rec(fields) => bounds_product_of_fields(alloc, fields.as_slice()),
        Closed::Matrix(axes, item) => {
            let items = bound(alloc, item.get())?;
            next_power(items, bounds_product(alloc, axes.as_slice())?)
        }
        Closed::Set(_, member) => power(2, bound(alloc, member.get())?),
        Closed::MSet(own, member) => {
            let times = counted(occurrences(own.as_slice()))?;
            next_power(times, bound(alloc, member.get())?)
        }
        Closed::Function(_, from, to) => {
            let values = bound(alloc, to.get())?;
            next_power(values, bound(alloc, from.get())?)
        }
        Closed::Relation(_, parts) => power(2, bounds_product(alloc, parts.as_slice())?),
        Closed::Partition(_, member) => {
            let members = bound(alloc, member.get())?;
            next_power(members, members)
        }
    }
}

/// The product of the bounds.
#[cycle(bounds)]
#[tactic(auto, using(crate::proofs::BoundForms::bounds_none, crate::proofs::BoundForms::bounds_more, crate::proofs::BoundForms::bounds_all))]
pub(crate) fn bounds_product(alloc: Global, domains: &[Closed]) -> Result<usize, NoMemory>
    ensures { IfOk result (λ n. n ≡ product_bound (pure_closeds domains.now)) }
{
    let mut total: usize = 1;
    for domain in domains {
        total = product(total, bound(alloc, domain)?)?;
    }
    Ok(total)
}

/// The same of the domains of fields.
#[cycle(bounds)]
#[tactic(auto, using(crate::proofs::BoundForms::field_bounds_none, crate::proofs::BoundForms::field_bounds_more, crate::proofs::BoundForms::field_bounds_all))]
fn bounds_product_of_fields(alloc: Global, fields: &[FieldClosed]) -> Result<usize, NoMemory>
    ensures { IfOk result (λ n. n ≡ product_bound (domains_of (map (λ f. f.1) (map pure_field_closed fields.now)))) }
{
    let mut total: usize = 1;
    for field in fields {
        total = product(total, bound(alloc, &field.domain)?)?;
    }
    Ok(total)
}

/// How many numbers the ranges hold; none where they can't be listed.
#[tactic(auto, using(crate::proofs::BoundForms::numbers_there, crate::proofs::BoundForms::numbers_none))]
fn count_of_numbers(alloc: Global, spans: &[Span]) -> Result<usize, NoMemory>
    ensures { IfOk result (λ n. n ≡ length (member_list (integers (map pure_span spans.now)))) }
{
    match number_members(alloc, spans)? {
        Some(numbers) => Ok(numbers.len()),
        None => Ok(0),
    }
}

/// A product. `NoMemory` where it can't be counted.
fn product(a: usize, b: usize) -> Result<usize, NoMemory>
    ensures { IfOk result (λ n. n ≡ a * b) }
{
    match a.checked_mul(b) {
        Some(product) => Ok(product),
        None => Err(NoMemory),
    }
}

/// One more than the base to the power of the exponent.
fn next_power(base: usize, exponent: usize) -> Result<usize, NoMemory>
    ensures { IfOk result (λ n. n ≡ suc base ^ exponent) }
{
    match base.checked_add(1) {
        Some(next) => power(next, exponent),
        None => Err(NoMemory),
    }
}

/// A power. `NoMemory` where it can't be counted. `0` to the power `0` is 1.
#[tactic(auto, using(crate::proofs::BoundForms::power_to_0, crate::proofs::BoundForms::power_small, crate::proofs::BoundForms::power_none, crate::proofs::BoundForms::power_more))]
fn power(base: usize, exponent: usize) -> Result<usize, NoMemory>
    ensures { IfOk result (λ n. n ≡ base ^ exponent) }
{
    if exponent == 0 {
        return Ok(1);
    }
    if base <= 1 {
        return Ok(base);
    }
    let mut power: usize = 1;
    for k in 0..exponent {
        power = product(power, base)?;
    }
    Ok(power)
}
