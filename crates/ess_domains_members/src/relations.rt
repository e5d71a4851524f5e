ghost use Rattle.std.specs.Prelude.{◌≡◌, map, option_map, length, not, ◌||◌, IfOk};
ghost use Rattle.std.specs.List.{list_all};
ghost use Rattle.ess_semantics.specs.Values.{pair, from_of, to_of};
ghost use Rattle.ess_semantics.specs.Order.{same as same_of};
ghost use Rattle.ess_semantics.specs.Attributes.{attribute_holds, size_holds as sizes_hold, relation_holds as relations_hold, relation_attributes_hold as attributes_hold, related as related_in, head_members as first_members};
ghost use Rattle.ess_semantics.specs.Lists.{is_some_and};
ghost use Rattle.ess_core.specs.ValueViews.{pure_val};
ghost use Rattle.ess_eval_domains.specs.ClosedViews.{pure_closeds, pure_attribute, pure_attributes};

use crate::lists::{holds, same};
use crate::numbers::size_holds;
use crate::pairs::{first_of, pair_of, second_of};
use ess_core::{Key, NoMemory, Row, Val};
use ess_eval_domains::{Attribute, Closed, members};
use std::alloc::Global;

/// Whether the attributes of a domain of relations over these components allow these tuples. `NoMemory` where there is no
/// room for the members of the first component, or for a pair.
pub fn relation_attributes_hold(
    alloc: Global,
    attributes: &[Attribute],
    parts: &[Closed],
    tuples: &[Val],
) -> Result<bool, NoMemory>
    ensures { IfOk result (λ b. b ≡ attributes_hold (pure_attributes attributes.now) (pure_closeds parts.now) (map pure_val tuples.now)) }
{
    for attribute in attributes {
        if !holds_of(alloc, *attribute, parts, tuples)? {
            return Ok(false);
        }
    }
    Ok(true)
}

/// The same of one attribute.
fn holds_of(
    alloc: Global,
    attribute: Attribute,
    parts: &[Closed],
    tuples: &[Val],
) -> Result<bool, NoMemory>
    ensures { IfOk result (λ b. b ≡ attribute_holds (λ k n. sizes_hold k n (length (map pure_val tuples.now))) (λ k. relations_hold k (first_members (pure_closeds parts.now)) (map pure_val tuples.now)) (pure_attribute attribute)) }
{
    match attribute {
        Attribute::Numbered(key, number) => Ok(size_holds(key, number, tuples.len())),
        Attribute::Flagged(key) => Ok(relation_holds(alloc, key, parts, tuples)?),
    }
}

/// The same of one attribute without a number.
fn relation_holds(
    alloc: Global,
    key: Key,
    parts: &[Closed],
    tuples: &[Val],
) -> Result<bool, NoMemory>
    ensures { IfOk result (λ b. b ≡ relations_hold key (first_members (pure_closeds parts.now)) (map pure_val tuples.now)) }
{
    match key {
        Key::Reflexive => Ok(is_reflexive(alloc, parts, tuples)?),
        Key::Irreflexive => Ok(is_irreflexive(tuples)),
        Key::Symmetric => Ok(is_symmetric(alloc, tuples)?),
        Key::AntiSymmetric => Ok(is_antisymmetric(alloc, tuples)?),
        Key::ASymmetric => Ok(is_asymmetric(alloc, tuples)?),
        Key::Transitive => Ok(is_transitive(alloc, tuples)?),
        _ => Ok(true),
    }
}

/// Whether the pair of two values is among the tuples.
fn related(alloc: Global, tuples: &[Val], from: &Val, to: &Val) -> Result<bool, NoMemory>
    ensures { IfOk result (λ b. b ≡ related_in (map pure_val tuples.now) (pure_val from.now) (pure_val to.now)) }
{
    let own = pair_of(alloc, from, to)?;
    Ok(holds(tuples, own.get()))
}

/// Whether each member of the first component is related to itself.
fn is_reflexive(alloc: Global, parts: &[Closed], tuples: &[Val]) -> Result<bool, NoMemory>
    ensures { IfOk result (λ b. b ≡ is_some_and (first_members (pure_closeds parts.now)) (λ vs. list_all (λ x. related_in (map pure_val tuples.now) x x) vs)) }
{
    match head_members(alloc, parts)? {
        Some(vals) => Ok(each_to_itself(alloc, vals.as_slice(), tuples)?),
        None => Ok(false),
    }
}

/// The members of the first component.
fn head_members(alloc: Global, parts: &[Closed]) -> Result<Option<Row<Val>>, NoMemory>
    ensures { IfOk result (λ o. option_map (map pure_val) o ≡ first_members (pure_closeds parts.now)) }
{
    match parts.first() {
        Some(first) => members(alloc, first),
        None => Ok(None),
    }
}

/// Whether each of these is related to itself.
fn each_to_itself(alloc: Global, vals: &[Val], tuples: &[Val]) -> Result<bool, NoMemory>
    ensures { IfOk result (λ b. b ≡ list_all (λ x. related_in (map pure_val tuples.now) x x) (map pure_val vals.now)) }
{
    for val in vals {
        if !related(alloc, tuples, val, val)? {
            return Ok(false);
        }
    }
    Ok(true)
}

/// Whether no value is related to itself.
fn is_irreflexive(tuples: &[Val]) -> bool
    ensures { result ≡ list_all (λ p. not (same_of (from_of p) (to_of p))) (map pure_val tuples.now) }
{
    for tuple in tuples {
        if same(first_of(tuple), second_of(tuple)) {
            return false;
        }
    }
    true
}

/// Whether each pair is there the other way round.
fn is_symmetric(alloc: Global, tuples: &[Val]) -> Result<bool, NoMemory>
    ensures { IfOk result (λ b. b ≡ list_all (λ p. related_in (map pure_val tuples.now) (to_of p) (from_of p)) (map pure_val tuples.now)) }
{
    for tuple in tuples {
        if !related(alloc, tuples, second_of(tuple), first_of(tuple))? {
            return Ok(false);
        }
    }
    Ok(true)
}

/// Whether a pair is there the other way round only where its two values are equal.
fn is_antisymmetric(alloc: Global, tuples: &[Val]) -> Result<bool, NoMemory>
    ensures { IfOk result (λ b. b ≡ list_all (λ p. not (related_in (map pure_val tuples.now) (to_of p) (from_of p)) || same_of (from_of p) (to_of p)) (map pure_val tuples.now)) }
{
    for tuple in tuples {
        if related(alloc, tuples, second_of(tuple), first_of(tuple))? {
            if !same(first_of(tuple), second_of(tuple)) {
                return Ok(false);
            }
        }
    }
    Ok(true)
}

/// Whether no pair is there the other way round.
fn is_asymmetric(alloc: Global, tuples: &[Val]) -> Result<bool, NoMemory>
    ensures { IfOk result (λ b. b ≡ list_all (λ p. not (related_in (map pure_val tuples.now) (to_of p) (from_of p))) (map pure_val tuples.now)) }
{
    for tuple in tuples {
        if related(alloc, tuples, second_of(tuple), first_of(tuple))? {
            return Ok(false);
        }
    }
    Ok(true)
}

/// Whether two pairs of which the first ends where the second begins have their pair.
fn is_transitive(alloc: Global, tuples: &[Val]) -> Result<bool, NoMemory>
    ensures { IfOk result (λ b. b ≡ list_all (λ p. list_all (λ q. not (same_of (to_of p) (from_of q)) || related_in (map pure_val tuples.now) (from_of p) (to_of q)) (map pure_val tuples.now)) (map pure_val tuples.now)) }
{
    for tuple in tuples {
        if !goes_on(alloc, tuples, tuple)? {
            return Ok(false);
        }
    }
    Ok(true)
}

/// The same of one first pair.
fn goes_on(alloc: Global, tuples: &[Val], tuple: &Val) -> Result<bool, NoMemory>
    ensures { IfOk result (λ b. b ≡ list_all (λ q. not (same_of (to_of (pure_val tuple.now)) (from_of q)) || related_in (map pure_val tuples.now) (from_of (pure_val tuple.now)) (to_of q)) (map pure_val tuples.now)) }
{
    for next in tuples {
        if same(second_of(tuple), first_of(next)) {
            if !related(alloc, tuples, first_of(tuple), second_of(next))? {
                return Ok(false);
            }
        }
    }
    Ok(true)
}
