ghost use Rattle.std.specs.Prelude.{◌≡◌};
ghost use Rattle.ess_semantics.specs.Domains.{attribute as attribute_of, has as has_of, key_number, key_of_attribute, same_key as same_keys};
ghost use Rattle.ess_semantics.specs.Numbers.{natural as natural_of};
ghost use Rattle.ess_eval_domains.specs.ClosedViews.{pure_attribute, pure_attributes};

use crate::closed::Attribute;
use ess_core::Key;

/// Whether the attribute stands among these, with a number or without.
pub fn has(key: Key, attributes: &[Attribute]) -> bool
    ensures { result ≡ has_of key (pure_attributes attributes.now) }
{
    for attribute in attributes {
        if is_of(*attribute, key) {
            return true;
        }
    }
    false
}

/// The number of the attribute, where it stands among these with one; a number below 0 counts as 0.
pub fn attribute(key: Key, attributes: &[Attribute]) -> Option<u64>
    ensures { result ≡ attribute_of key (pure_attributes attributes.now) }
{
    for attribute in attributes {
        if let Attribute::Numbered(own, number) = attribute {
            if same_key(key, *own) {
                return Some(natural(*number));
            }
        }
    }
    None
}

/// Whether an attribute has this key.
fn is_of(attribute: Attribute, key: Key) -> bool
    ensures { result ≡ same_keys key (key_of_attribute (pure_attribute attribute)) }
{
    match attribute {
        Attribute::Numbered(own, _) => same_key(key, own),
        Attribute::Flagged(own) => same_key(key, own),
    }
}

/// A number from 0 on; one below 0 counts as 0.
fn natural(number: i64) -> u64
    ensures { result ≡ natural_of number }
{
    if number < 0 { 0 } else { number as u64 }
}

/// Whether two attributes are the same.
fn same_key(key: Key, other: Key) -> bool
    ensures { result ≡ same_keys key other }
{
    place(key) == place(other)
}

/// The place of an attribute in the list of all.
fn place(key: Key) -> u8
    ensures { result ≡ key_number key }
{
    match key {
        Key::Size => 0,
        Key::MinSize => 1,
        Key::MaxSize => 2,
        Key::Reflexive => 3,
        Key::Irreflexive => 4,
        Key::Symmetric => 5,
        Key::AntiSymmetric => 6,
        Key::ASymmetric => 7,
        Key::Transitive => 8,
        Key::MinOccur => 9,
        Key::MaxOccur => 10,
        Key::Total => 11,
        Key::Injective => 12,
        Key::Surjective => 13,
        Key::Bijective => 14,
        Key::NumParts => 15,
        Key::MinNumParts => 16,
        Key::MaxNumParts => 17,
        Key::PartSize => 18,
        Key::MinPartSize => 19,
        Key::MaxPartSize => 20,
        Key::Regular => 21,
    }
}
