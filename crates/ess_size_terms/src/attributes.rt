//! The attributes of domains, and their numbers.
ghost use Rattle.std.specs.Prelude.{◌≡◌, map, option_map};
ghost use Rattle.std.specs.Option.{option_copied};
ghost use Rattle.ess_semantics.specs.Domains.{key_number, same_key as same_keys};
ghost use Rattle.ess_semantics.specs.Kinds.{has_key as has_the_key};
ghost use Rattle.ess_core_nodes.specs.NodeViews.{pure_node, pure_nodes, pure_mark};
ghost use Rattle.ess_repr_declare_laws.specs.SizeTerms.{number_of as number_in, greatest_size_of};

use ess_core::Key;
use ess_core_nodes::{Mark, Node};

/// The place of an attribute in the list of all, by which two are told apart.
fn place_of(key: Key) -> u8
    ensures { result ≡ key_number key }
{
    match key {
        Key::Size => 0,
        Key::MinSize => 1,
        Key::MaxSize => 2,
        Key::Reflexive => 3,
        Key::Irreflexive => 4,
        Key::Symmetric => 5,
        Key::AntiSymmetric => 6,
        Key::ASymmetric => 7,
        Key::Transitive => 8,
        Key::MinOccur => 9,
        Key::MaxOccur => 10,
        Key::Total => 11,
        Key::Injective => 12,
        Key::Surjective => 13,
        Key::Bijective => 14,
        Key::NumParts => 15,
        Key::MinNumParts => 16,
        Key::MaxNumParts => 17,
        Key::PartSize => 18,
        Key::MinPartSize => 19,
        Key::MaxPartSize => 20,
        Key::Regular => 21,
    }
}

/// Whether two attributes are one.
pub fn same_key(a: Key, b: Key) -> bool
    ensures { result ≡ same_keys a b }
{
    place_of(a) == place_of(b)
}

/// Whether an attribute is among those that stand there, with or without a number.
pub fn has_key(marks: &[Mark], key: Key) -> bool
    ensures { result ≡ has_the_key key (map pure_mark marks.now) }
{
    match marks.split_first() {
        None => false,
        Some((Mark::Flag(other), rest)) => same_key(key, *other) || has_key(rest, key),
        Some((Mark::Valued(other), rest)) => same_key(key, *other) || has_key(rest, key),
    }
}

/// The number of an attribute, where it stands with one: the numbers stand in the order of the attributes that have one.
pub fn number_of<'a>(marks: &[Mark], numbers: &'a [Node], key: Key) -> Option<&'a Node>
    ensures { option_map pure_node (option_copied result) ≡ number_in key (map pure_mark marks.now) (pure_nodes numbers.now) }
{
    match marks.split_first() {
        None => None,
        Some((Mark::Flag(_), rest)) => number_of(rest, numbers, key),
        Some((Mark::Valued(other), rest)) => match numbers.split_first() {
            None => None,
            Some((number, more)) => {
                if same_key(*other, key) {
                    Some(number)
                } else {
                    number_of(rest, more, key)
                }
            }
        },
    }
}

/// The number of `size`, else that of `maxSize`.
pub fn greatest_size<'a>(marks: &[Mark], numbers: &'a [Node]) -> Option<&'a Node>
    ensures { option_map pure_node (option_copied result) ≡ greatest_size_of (map pure_mark marks.now) (pure_nodes numbers.now) }
{
    match number_of(marks, numbers, Key::Size) {
        Some(size) => Some(size),
        None => number_of(marks, numbers, Key::MaxSize),
    }
}
