ghost use Rattle.std.specs.Prelude.{◌≡◌, length, map};
ghost use Rattle.ess_semantics.specs.Domains.{member_list};
ghost use Rattle.ess_eval_domains.specs.ClosedViews.{pure_closed, pure_closeds, pure_field_closed, domains_of};
ghost use Rattle.ess_domains_cells.specs.Kept.{kept as kept_of};
ghost use Rattle.ess_domains_cells.specs.Products.{member_product};

use crate::kept::product;
use crate::ranges::number_count;
use ess_eval_domains::{Closed, FieldClosed};

/// How many members a domain that is an atom, or a tuple or record of enumerable domains, has, kept at the limit; 0 for any
/// other one.
#[cycle(members)]
#[tactic(auto, using(crate::proofs::MemberCounts::count_tuple, crate::proofs::MemberCounts::count_record, crate::proofs::MemberCounts::count_named))]
pub fn member_count(domain: &Closed) -> u128
    ensures { result ≡ kept_of (length (member_list (pure_closed domain.now))) }
{
    match domain {
        Closed::Bool => 2,
        Closed::Int(spans) => number_count(spans.as_slice()),
        Closed::Named(_, count) => *count as u128,
        Closed::Tuple(parts) => members_product(parts.as_slice()),
        Closed::Rec(fields) => members_product_of_fields(fields.as_slice()),
        _ => 0,
    }
}

/// The product of the numbers of members.
#[cycle(members)]
#[tactic(auto, using(crate::proofs::MemberCounts::members_none, crate::proofs::MemberCounts::members_more, crate::proofs::MemberCounts::members_all, crate::proofs::KeptNumbers::kept_twice))]
pub fn members_product(domains: &[Closed]) -> u128
    ensures { result ≡ kept_of (member_product (pure_closeds domains.now)) }
{
    let mut total = 1;
    for domain in domains {
        total = product(total, member_count(domain));
    }
    total
}

/// The same of the domains of fields.
#[cycle(members)]
#[tactic(auto, using(crate::proofs::MemberCounts::field_members_none, crate::proofs::MemberCounts::field_members_more, crate::proofs::MemberCounts::field_members_all, crate::proofs::KeptNumbers::kept_twice))]
fn members_product_of_fields(fields: &[FieldClosed]) -> u128
    ensures { result ≡ kept_of (member_product (domains_of (map (λ f. f.1) (map pure_field_closed fields.now)))) }
{
    let mut total = 1;
    for field in fields {
        total = product(total, member_count(&field.domain));
    }
    total
}
