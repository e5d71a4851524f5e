//! The domains of a value that is kept as a relation or a set: its sizes become attributes.
ghost use Rattle.std.specs.Prelude.{◌≡◌, IfOk, OnOk, ◌∷◌, [], ◌++◌, if◌then◌else◌, Some, map, option_map};
ghost use Rattle.ess_semantics.specs.declared.words.Key.TheVariants.{Size, MaxSize, Total, NumParts, MaxNumParts, PartSize, MinPartSize, MaxPartSize};
ghost use Rattle.ess_semantics.specs.Lists.{or_else};
ghost use Rattle.ess_semantics.specs.Domains.{sets, attribute as attribute_of, has as has_of};
ghost use Rattle.ess_semantics.specs.Sizes.{bound as bound_meant, sized_if, size_attributes, child_relation, child_set, child_parts};
ghost use Rattle.ess_eval_domains.specs.ClosedViews.{pure_closed, pure_closeds, pure_attributes};

use crate::bounds::bound;
use crate::copies::{boxed, several, two};
use ess_core::{Boxed, Key, NoMemory, Row};
use ess_eval_domains::{Attribute, Closed, attribute, has};
use std::alloc::Global;

/// The relation of a function's pairs, alone in a row. A total function has as many pairs as its first domain has members, any
/// other one without `size` and `maxSize` at most that many.
#[tactic(auto, using(crate::proofs::SizedRows::pairs_made))]
pub(crate) fn pair_relation(
    alloc: Global,
    own: &[Attribute],
    from: &Closed,
    to: &Closed,
) -> Result<Row<Closed>, NoMemory>
    ensures { IfOk result (λ ds. map pure_closed ds ≡ child_relation (pure_attributes own.now) (pure_closed from.now) (pure_closed to.now) ∷ []) }
{
    let size = size_of_pairs(alloc, own, from)?;
    let greatest = greatest_of_pairs(alloc, own, from)?;
    let sizes = sizes(alloc, size, attribute(Key::MinSize, own), greatest)?;
    let parts = two(alloc, from, to)?;
    Row::from_array(alloc, [Closed::Relation(sizes, parts)])
}

/// The number of pairs of a function, where it is known.
#[tactic(auto, using(crate::proofs::SizedRows::if_yes, crate::proofs::SizedRows::if_no))]
fn size_of_pairs(alloc: Global, own: &[Attribute], from: &Closed) -> Result<Option<u64>, NoMemory>
    ensures { IfOk result (λ o. o ≡ (if has_of Total (pure_attributes own.now) then Some (bound_meant (pure_closed from.now)) else attribute_of Size (pure_attributes own.now))) }
{
    if has(Key::Total, own) {
        return Ok(Some(bound(alloc, from)? as u64));
    }
    Ok(attribute(Key::Size, own))
}

/// The greatest number of pairs of a function, where it is asked for or the number isn't known.
#[tactic(auto, using(crate::proofs::SizedRows::if_yes, crate::proofs::SizedRows::if_no))]
fn greatest_of_pairs(
    alloc: Global,
    own: &[Attribute],
    from: &Closed,
) -> Result<Option<u64>, NoMemory>
    ensures { IfOk result (λ o. o ≡ (if has_of Total (pure_attributes own.now) then attribute_of MaxSize (pure_attributes own.now) else
        (if has_of Size (pure_attributes own.now) then attribute_of MaxSize (pure_attributes own.now) else or_else (attribute_of MaxSize (pure_attributes own.now)) (Some (bound_meant (pure_closed from.now)))))) }
{
    if has(Key::Total, own) {
        return Ok(attribute(Key::MaxSize, own));
    }
    given_or_bound(
        alloc,
        has(Key::Size, own),
        attribute(Key::MaxSize, own),
        from,
    )
}

/// The greatest number, where it is given or the exact one is; else the bound of the domain.
fn given_or_bound(
    alloc: Global,
    is_exact: bool,
    greatest: Option<u64>,
    domain: &Closed,
) -> Result<Option<u64>, NoMemory>
    ensures { IfOk result (λ o. o ≡ (if is_exact then greatest else or_else greatest (Some (bound_meant (pure_closed domain.now))))) }
{
    if is_exact {
        return Ok(greatest);
    }
    match greatest {
        Some(number) => Ok(Some(number)),
        None => Ok(Some(bound(alloc, domain)? as u64)),
    }
}

/// The set of a relation's tuples, alone in a row.
#[tactic(auto, using(crate::proofs::SizedRows::tuples_made))]
pub(crate) fn tuple_set(
    alloc: Global,
    own: &[Attribute],
    parts: &[Closed],
) -> Result<Row<Closed>, NoMemory>
    ensures { IfOk result (λ ds. map pure_closed ds ≡ child_set (pure_attributes own.now) (pure_closeds parts.now) ∷ []) }
{
    let sizes = sizes(
        alloc,
        attribute(Key::Size, own),
        attribute(Key::MinSize, own),
        attribute(Key::MaxSize, own),
    )?;
    let parts = several(alloc, parts)?;
    let tuple = Boxed::new(alloc, Closed::Tuple(parts))?;
    Row::from_array(alloc, [Closed::Set(sizes, tuple)])
}

/// The set of a partition's parts, alone in a row. Without `numParts` and `maxNumParts` there are at most as many as its domain has
/// members.
#[tactic(auto, using(crate::proofs::SizedRows::parts_made))]
pub(crate) fn part_sets(
    alloc: Global,
    own: &[Attribute],
    member: &Closed,
) -> Result<Row<Closed>, NoMemory>
    ensures { IfOk result (λ ds. map pure_closed ds ≡ child_parts (pure_attributes own.now) (pure_closed member.now) ∷ []) }
{
    let greatest = attribute(Key::MaxNumParts, own);
    let greatest = given_or_bound(alloc, has(Key::NumParts, own), greatest, member)?;
    let sizes = sizes(
        alloc,
        attribute(Key::NumParts, own),
        attribute(Key::MinNumParts, own),
        greatest,
    )?;
    let part = part(alloc, own, member)?;
    Row::from_array(alloc, [Closed::Set(sizes, part)])
}

/// A part of a partition: a set with the sizes of parts.
#[tactic(auto, using(crate::proofs::SizedRows::part_made))]
fn part(alloc: Global, own: &[Attribute], member: &Closed) -> Result<Boxed<Closed>, NoMemory>
    ensures { IfOk result (λ d. pure_closed d ≡ sets (size_attributes (attribute_of PartSize (pure_attributes own.now)) (attribute_of MinPartSize (pure_attributes own.now))
        (attribute_of MaxPartSize (pure_attributes own.now))) (pure_closed member.now)) }
{
    let sizes = sizes(
        alloc,
        attribute(Key::PartSize, own),
        attribute(Key::MinPartSize, own),
        attribute(Key::MaxPartSize, own),
    )?;
    let member = boxed(alloc, member)?;
    Boxed::new(alloc, Closed::Set(sizes, member))
}

/// `size`, `minSize` and `maxSize`, as far as their numbers are there. `NoMemory` where one is above 2^63 - 1: nothing has that many.
#[tactic(auto, using(crate::proofs::SizedRows::sizes_made))]
fn sizes(
    alloc: Global,
    size: Option<u64>,
    least: Option<u64>,
    greatest: Option<u64>,
) -> Result<Row<Attribute>, NoMemory>
    ensures { IfOk result (λ ks. pure_attributes ks ≡ size_attributes size least greatest) }
{
    let mut attributes = Row::new(alloc);
    put(&mut attributes, Key::Size, size)?;
    put(&mut attributes, Key::MinSize, least)?;
    put(&mut attributes, Key::MaxSize, greatest)?;
    Ok(attributes)
}

/// Puts an attribute behind the others, where its number is there.
#[tactic(auto, using(crate::proofs::SizedRows::put_one, crate::proofs::SizedRows::put_none))]
fn put(attributes: &mut Row<Attribute>, key: Key, number: Option<u64>) -> Result<(), NoMemory>
    ensures { OnOk result (pure_attributes attributes.new ≡ pure_attributes attributes.old ++ sized_if key number) }
{
    match number {
        Some(number) => match i64::try_from(number) {
            Ok(number) => attributes.push(Attribute::Numbered(key, number)),
            Err(_) => Err(NoMemory),
        },
        None => Ok(()),
    }
}
