ghost use Rattle.std.specs.Prelude.{◌≡◌};
ghost use Rattle.ess_semantics.specs.Sizes.{greatest_size as greatest_meant, occurrences as occurrences_meant};
ghost use Rattle.ess_eval_domains.specs.ClosedViews.{pure_attributes};

use ess_core::Key;
use ess_eval_domains::{Attribute, attribute};

/// `size`, else `maxSize`.
pub fn greatest_size(attributes: &[Attribute]) -> Option<u64>
    ensures { result ≡ greatest_meant (pure_attributes attributes.now) }
{
    match attribute(Key::Size, attributes) {
        Some(size) => Some(size),
        None => attribute(Key::MaxSize, attributes),
    }
}

/// How often a member of a multiset occurs at most: `maxOccur`, else `size`, else `maxSize`, else 0.
pub fn occurrences(attributes: &[Attribute]) -> u64
    ensures { result ≡ occurrences_meant (pure_attributes attributes.now) }
{
    match attribute(Key::MaxOccur, attributes) {
        Some(times) => times,
        None => greatest_size(attributes).unwrap_or(0),
    }
}
