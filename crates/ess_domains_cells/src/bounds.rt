ghost use Rattle.std.specs.Prelude.{◌≡◌, suc, map, ◌^◌};
ghost use Rattle.ess_semantics.specs.Sizes.{bound as bound_meant, product_bound};
ghost use Rattle.ess_eval_domains.specs.ClosedViews.{pure_closed, pure_closeds, pure_field_closed, domains_of};
ghost use Rattle.ess_domains_cells.specs.Kept.{kept as kept_of};

use crate::attributes::occurrences;
use crate::kept::{power, product, sum};
use crate::ranges::number_count;
use ess_eval_domains::{Closed, FieldClosed};

/// A number that the number of members of a finite domain never exceeds, kept at the limit.
#[cycle(bounds)]
#[tactic(auto, using(crate::proofs::BoundForms::bound_named, crate::proofs::BoundForms::bound_tuple, crate::proofs::BoundForms::bound_record, crate::proofs::BoundForms::bound_matrix, crate::proofs::BoundForms::bound_set, crate::proofs::BoundForms::bound_mset, crate::proofs::BoundForms::bound_function, crate::proofs::BoundForms::bound_relation, crate::proofs::BoundForms::bound_partition))]
pub fn bound(domain: &Closed) -> u128
    ensures { result ≡ kept_of (bound_meant (pure_closed domain.now)) }
{
    match domain {
        Closed::Bool => 2,
        Closed::Int(spans) => number_count(spans.as_slice()),
        Closed::Named(_, count) => *count as u128,
        Closed::Tuple(parts) => bounds_product(parts.as_slice()),
        Closed::Rec(fields) => bounds_product_of_fields(fields.as_slice()),
        Closed::Matrix(axes, item) => {
            let items = bound(item.get());
            next_power(items, bounds_product(axes.as_slice()))
        }
        Closed::Set(_, member) => power(2, bound(member.get())),
        Closed::MSet(own, member) => {
            let times = occurrences(own.as_slice()) as u128;
            next_power(times, bound(member.get()))
        }
        Closed::Function(_, from, to) => {
            let values = bound(to.get());
            next_power(values, bound(from.get()))
        }
        Closed::Relation(_, parts) => power(2, bounds_product(parts.as_slice())),
        Closed::Partition(_, member) => {
            let members = bound(member.get());
            next_power(members, members)
        }
    }
}

/// One more than the base to the power of the exponent, kept at the limit.
#[tactic(auto, using(crate::proofs::BoundForms::next_power_is))]
fn next_power(base: u128, exponent: u128) -> u128
    ensures { result ≡ kept_of (suc base ^ exponent) }
{
    power(sum(base, 1), exponent)
}

/// The product of the bounds.
#[cycle(bounds)]
#[tactic(auto, using(crate::proofs::BoundForms::bounds_none, crate::proofs::BoundForms::bounds_more, crate::proofs::BoundForms::bounds_all, crate::proofs::KeptNumbers::kept_twice))]
pub fn bounds_product(domains: &[Closed]) -> u128
    ensures { result ≡ kept_of (product_bound (pure_closeds domains.now)) }
{
    let mut total = 1;
    for domain in domains {
        total = product(total, bound(domain));
    }
    total
}

/// The same of the domains of fields.
#[cycle(bounds)]
#[tactic(auto, using(crate::proofs::BoundForms::field_bounds_none, crate::proofs::BoundForms::field_bounds_more, crate::proofs::BoundForms::field_bounds_all, crate::proofs::KeptNumbers::kept_twice))]
fn bounds_product_of_fields(fields: &[FieldClosed]) -> u128
    ensures { result ≡ kept_of (product_bound (domains_of (map (λ f. f.1) (map pure_field_closed fields.now)))) }
{
    let mut total = 1;
    for field in fields {
        total = product(total, bound(&field.domain));
    }
    total
}
