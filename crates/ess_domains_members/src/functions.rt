ghost use Rattle.std.specs.Prelude.{◌≡◌, map, length, IfOk};
ghost use Rattle.ess_semantics.specs.Values.{from_of, to_of};
ghost use Rattle.ess_semantics.specs.Domains.{members as members_of};
ghost use Rattle.ess_semantics.specs.Attributes.{attribute_holds, size_holds as sizes_hold, function_holds as functions_hold, function_attributes_hold as attributes_hold, is_total as total_is, is_injective as injective_is, is_surjective as surjective_is};
ghost use Rattle.ess_core.specs.ValueViews.{pure_val, pure_pair};
ghost use Rattle.ess_eval_domains.specs.ClosedViews.{pure_closed, pure_attribute, pure_attributes};

use crate::matrices::add_copy;
use crate::numbers::size_holds;
use crate::repeats::{all_differ, are_among};
use ess_core::{Key, NoMemory, Pair, Row, Val};
use ess_eval_domains::{Attribute, Closed, members};
use std::alloc::Global;

/// Whether the attributes of a domain of functions from a domain to a domain allow these pairs. `NoMemory` where there is no
/// room for the members of one of them.
pub fn function_attributes_hold(
    alloc: Global,
    attributes: &[Attribute],
    from: &Closed,
    to: &Closed,
    pairs: &[Pair],
) -> Result<bool, NoMemory>
    ensures { IfOk result (λ b. b ≡ attributes_hold (pure_attributes attributes.now) (pure_closed from.now) (pure_closed to.now) (map pure_pair pairs.now)) }
{
    for attribute in attributes {
        if !holds_of(alloc, *attribute, from, to, pairs)? {
            return Ok(false);
        }
    }
    Ok(true)
}

/// The same of one attribute.
fn holds_of(
    alloc: Global,
    attribute: Attribute,
    from: &Closed,
    to: &Closed,
    pairs: &[Pair],
) -> Result<bool, NoMemory>
    ensures { IfOk result (λ b. b ≡ attribute_holds (λ k n. sizes_hold k n (length (map pure_pair pairs.now))) (λ k. functions_hold k (members_of (pure_closed from.now)) (members_of (pure_closed to.now)) (map pure_pair pairs.now)) (pure_attribute attribute)) }
{
    match attribute {
        Attribute::Numbered(key, number) => Ok(size_holds(key, number, pairs.len())),
        Attribute::Flagged(key) => Ok(function_holds(alloc, key, from, to, pairs)?),
    }
}

/// The same of one attribute without a number.
fn function_holds(
    alloc: Global,
    key: Key,
    from: &Closed,
    to: &Closed,
    pairs: &[Pair],
) -> Result<bool, NoMemory>
    ensures { IfOk result (λ b. b ≡ functions_hold key (members_of (pure_closed from.now)) (members_of (pure_closed to.now)) (map pure_pair pairs.now)) }
{
    match key {
        Key::Total => Ok(is_total(alloc, from, pairs)?),
        Key::Injective => Ok(is_injective(alloc, pairs)?),
        Key::Surjective => Ok(is_surjective(alloc, to, pairs)?),
        Key::Bijective => {
            if !is_injective(alloc, pairs)? {
                return Ok(false);
            }
            Ok(is_surjective(alloc, to, pairs)?)
        }
        _ => Ok(true),
    }
}

/// Whether each member of the first domain has a value.
#[tactic(auto, using(crate::proofs::SetSizes::total_told, crate::proofs::SetSizes::total_none))]
fn is_total(alloc: Global, from: &Closed, pairs: &[Pair]) -> Result<bool, NoMemory>
    ensures { IfOk result (λ b. b ≡ total_is (members_of (pure_closed from.now)) (map pure_pair pairs.now)) }
{
    match members(alloc, from)? {
        Some(vals) => Ok(are_among(alloc, vals, arguments_of(alloc, pairs)?)?),
        None => Ok(false),
    }
}

/// Whether each member of the second domain is a value.
#[tactic(auto, using(crate::proofs::SetSizes::surjective_told, crate::proofs::SetSizes::surjective_none))]
fn is_surjective(alloc: Global, to: &Closed, pairs: &[Pair]) -> Result<bool, NoMemory>
    ensures { IfOk result (λ b. b ≡ surjective_is (members_of (pure_closed to.now)) (map pure_pair pairs.now)) }
{
    match members(alloc, to)? {
        Some(vals) => Ok(are_among(alloc, vals, values_of(alloc, pairs)?)?),
        None => Ok(false),
    }
}

/// Whether no two arguments have one value.
#[tactic(auto, using(crate::proofs::SetSizes::injective_told))]
fn is_injective(alloc: Global, pairs: &[Pair]) -> Result<bool, NoMemory>
    ensures { IfOk result (λ b. b ≡ injective_is (map pure_pair pairs.now)) }
{
    let vals = values_of(alloc, pairs)?;
    Ok(all_differ(alloc, vals)?)
}

/// The arguments of pairs.
fn arguments_of(alloc: Global, pairs: &[Pair]) -> Result<Row<Val>, NoMemory>
    ensures { IfOk result (λ r. map pure_val r ≡ map from_of (map pure_pair pairs.now)) }
{
    let mut vals = Row::with_capacity(alloc, pairs.len())?;
    for pair in pairs {
        add_copy(alloc, &mut vals, &pair.from)?;
    }
    Ok(vals)
}

/// The values of pairs.
fn values_of(alloc: Global, pairs: &[Pair]) -> Result<Row<Val>, NoMemory>
    ensures { IfOk result (λ r. map pure_val r ≡ map to_of (map pure_pair pairs.now)) }
{
    let mut vals = Row::with_capacity(alloc, pairs.len())?;
    for pair in pairs {
        add_copy(alloc, &mut vals, &pair.to)?;
    }
    Ok(vals)
}
