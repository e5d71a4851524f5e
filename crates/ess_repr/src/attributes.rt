//! The attributes of domains.
ghost use Rattle.std.specs.Prelude.{◌≡◌, map, option_map};
ghost use Rattle.std.specs.Option.{option_copied};
ghost use Rattle.ess_semantics.specs.Domains.{key_number, same_key as same_keys};
ghost use Rattle.ess_semantics.specs.Kinds.{has_key as has_the_key};
ghost use Rattle.ess_core.specs.TreeViews.{words_of, within, exs_of, pure_attr, pure_ex};
ghost use Rattle.ess_repr_declare_laws.specs.SizeTerms.{number_of as number_in, greatest_size_of};

use ess_core::{Attr, Ex, Key};

/// The place of an attribute in the list of all, by which two are told apart.
fn number_of(key: Key) -> u8
    ensures { result ≡ key_number key }
{
    match key {
        Key::Size => 0,
        Key::MinSize => 1,
        Key::MaxSize => 2,
        Key::Reflexive => 3,
        Key::Irreflexive => 4,
        Key::Symmetric => 5,
        Key::AntiSymmetric => 6,
        Key::ASymmetric => 7,
        Key::Transitive => 8,
        Key::MinOccur => 9,
        Key::MaxOccur => 10,
        Key::Total => 11,
        Key::Injective => 12,
        Key::Surjective => 13,
        Key::Bijective => 14,
        Key::NumParts => 15,
        Key::MinNumParts => 16,
        Key::MaxNumParts => 17,
        Key::PartSize => 18,
        Key::MinPartSize => 19,
        Key::MaxPartSize => 20,
        Key::Regular => 21,
    }
}

/// Whether two attributes are one.
pub(crate) fn same_key(a: Key, b: Key) -> bool
    ensures { result ≡ same_keys a b }
{
    number_of(a) == number_of(b)
}

/// Whether an attribute is among those that stand there.
#[tactic(auto, using(crate::proofs::Marks::key_here, crate::proofs::Marks::key_later, crate::proofs::Marks::key_nowhere))]
pub(crate) fn has_key(attrs: &[Attr], key: Key) -> bool
    ensures { result ≡ has_the_key key (words_of (map pure_attr attrs.now)) }
{
    for (i, attr) in attrs.iter().enumerate() {
        if same_key(key, attr.key) {
            return true;
        }
    }
    false
}

/// The number of an attribute, where it stands with one.
#[tactic(auto, using(crate::proofs::Marks::value_here, crate::proofs::Marks::value_absent, crate::proofs::Marks::value_other, crate::proofs::Marks::value_nowhere))]
pub(crate) fn value_of(attrs: &[Attr], key: Key) -> Option<&Ex>
    ensures { option_map pure_ex (option_copied result) ≡ number_in key (words_of (map pure_attr attrs.now))
        (exs_of (within (map pure_attr attrs.now))) }
{
    for (i, attr) in attrs.iter().enumerate() {
        if same_key(attr.key, key) {
            match &attr.value {
                Some(value) => return Some(value),
                None => {}
            }
        }
    }
    None
}

/// `size`, else `maxSize`.
#[tactic(auto, using(crate::proofs::SizeSteps::greatest_there, crate::proofs::SizeSteps::greatest_other))]
pub(crate) fn greatest_size(attrs: &[Attr]) -> Option<&Ex>
    ensures { option_map pure_ex (option_copied result) ≡ greatest_size_of (words_of (map pure_attr attrs.now))
        (exs_of (within (map pure_attr attrs.now))) }
{
    match value_of(attrs, Key::Size) {
        Some(size) => Some(size),
        None => value_of(attrs, Key::MaxSize),
    }
}
