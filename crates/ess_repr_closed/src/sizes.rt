//! How many slots a set or multiset has.
ghost use Rattle.std.specs.Prelude.{◌≡◌, IfOk};
ghost use Rattle.ess_semantics.specs.Sizes.{greatest_size as greatest_meant, occurrences as occurrences_meant, slots_of_set, slots_of_mset};
ghost use Rattle.ess_eval_domains.specs.ClosedViews.{pure_attributes, pure_closed};

use crate::bounds::bound;
use ess_core::{Key, NoMemory};
use ess_eval_domains::{Attribute, Closed, attribute};
use std::alloc::Global;

/// `size`, else `maxSize`.
pub fn greatest_size(attributes: &[Attribute]) -> Option<u64>
    ensures { result ≡ greatest_meant (pure_attributes attributes.now) }
{
    match attribute(Key::Size, attributes) {
        Some(size) => Some(size),
        None => attribute(Key::MaxSize, attributes),
    }
}

/// How often a member of a multiset occurs at most: `maxOccur`, else `size`, else `maxSize`, else 0.
pub fn occurrences(attributes: &[Attribute]) -> u64
    ensures { result ≡ occurrences_meant (pure_attributes attributes.now) }
{
    match attribute(Key::MaxOccur, attributes) {
        Some(times) => times,
        None => greatest_size(attributes).unwrap_or(0),
    }
}

/// The slots of a set of members of a domain: `size`, else `maxSize`, else the bound of the domain. `NoMemory` where they can't be
/// counted.
pub fn set_slots(
    alloc: Global,
    attributes: &[Attribute],
    member: &Closed,
) -> Result<usize, NoMemory>
    ensures { IfOk result (λ n. n ≡ slots_of_set (pure_attributes attributes.now) (pure_closed member.now)) }
{
    match greatest_size(attributes) {
        Some(size) => counted(size),
        None => bound(alloc, member),
    }
}

/// The slots of a multiset: `size`, else `maxSize`, else the bound of the domain as often as a member occurs. `NoMemory` where they
/// can't be counted.
pub fn mset_slots(
    alloc: Global,
    attributes: &[Attribute],
    member: &Closed,
) -> Result<usize, NoMemory>
    ensures { IfOk result (λ n. n ≡ slots_of_mset (pure_attributes attributes.now) (pure_closed member.now)) }
{
    match greatest_size(attributes) {
        Some(size) => counted(size),
        None => {
            let times = counted(occurrences(attributes))?;
            match times.checked_mul(bound(alloc, member)?) {
                Some(slots) => Ok(slots),
                None => Err(NoMemory),
            }
        }
    }
}

/// A number of things that are held. `NoMemory` where there are too many.
pub(crate) fn counted(number: u64) -> Result<usize, NoMemory>
    ensures { IfOk result (λ n. n ≡ number) }
{
    match usize::try_from(number) {
        Ok(count) => Ok(count),
        Err(_) => Err(NoMemory),
    }
}
