//! The attributes of domains: whether they are those of the domain's kind, and whether one stands twice.
ghost use Rattle.std.specs.Prelude.{◌≡◌, ◌&&◌, [], ◌∷◌, map};
ghost use Rattle.ess_semantics.specs.Domains.{key_number, same_key as same_keys};
ghost use Rattle.ess_semantics.specs.Kinds.{has_key as has_the_key};
ghost use Rattle.ess_semantics.specs.DomainJudgements.{is_key, mark_is_among as is_mark_among, marks_among as are_marks_among, marks_distinct as are_marks_distinct, bounds_occurrences as occurrences_are_bounded};
ghost use Rattle.ess_core.specs.TreeViews.{words_of, pure_attr};
ghost use Rattle.ess_types_judging.specs.Holders.{numbered_keys, flag_keys};

use ess_core::{Attr, Key};

/// The kinds of domains that have attributes. A relation is binary where it has two components of one type.
#[derive(Clone, Copy, Debug)]
pub enum Holder {
    Set,
    MSet,
    Function,
    Relation,
    BinaryRelation,
    Partition,
}

/// The place of an attribute in the list of all, by which two are told apart.
fn number_of(key: Key) -> u8
    ensures { result ≡ key_number key }
{
    match key {
        Key::Size => 0,
        Key::MinSize => 1,
        Key::MaxSize => 2,
        Key::Reflexive => 3,
        Key::Irreflexive => 4,
        Key::Symmetric => 5,
        Key::AntiSymmetric => 6,
        Key::ASymmetric => 7,
        Key::Transitive => 8,
        Key::MinOccur => 9,
        Key::MaxOccur => 10,
        Key::Total => 11,
        Key::Injective => 12,
        Key::Surjective => 13,
        Key::Bijective => 14,
        Key::NumParts => 15,
        Key::MinNumParts => 16,
        Key::MaxNumParts => 17,
        Key::PartSize => 18,
        Key::MinPartSize => 19,
        Key::MaxPartSize => 20,
        Key::Regular => 21,
    }
}

/// Whether two attributes are one.
fn same_key(a: Key, b: Key) -> bool
    ensures { result ≡ same_keys a b }
{
    number_of(a) == number_of(b)
}

/// Whether an attribute is among those that stand there.
#[tactic(auto, using(crate::proofs::AttributeLemmas::key_here, crate::proofs::AttributeLemmas::key_later, crate::proofs::AttributeLemmas::key_nowhere))]
pub(crate) fn has_key(attrs: &[Attr], key: Key) -> bool
    ensures { result ≡ has_the_key key (words_of (map pure_attr attrs.now)) }
{
    for (i, attr) in attrs.iter().enumerate() {
        if same_key(key, attr.key) {
            return true;
        }
    }
    false
}

/// Whether no attribute stands twice.
#[tactic(auto, using(crate::proofs::AttributeLemmas::distinct_none, crate::proofs::AttributeLemmas::distinct_more, crate::proofs::AttributeLemmas::distinct_all))]
pub(crate) fn marks_distinct(attrs: &[Attr]) -> bool
    ensures { result ≡ are_marks_distinct (words_of (map pure_attr attrs.now)) }
{
    for (i, attr) in attrs.iter().enumerate() {
        if has_key(&attrs[i + 1..], attr.key) {
            return false;
        }
    }
    true
}

/// Whether a multiset's attributes bound how often a member occurs.
pub(crate) fn bounds_occurrences(attrs: &[Attr]) -> bool
    ensures { result ≡ occurrences_are_bounded (words_of (map pure_attr attrs.now)) }
{
    has_key(attrs, Key::Size) || has_key(attrs, Key::MaxSize) || has_key(attrs, Key::MaxOccur)
}

/// Whether the attribute is one of sizes.
fn is_size_key(key: Key) -> bool
    ensures { result ≡ is_key (numbered_keys Holder.Set) key }
{
    match key {
        Key::Size => true,
        Key::MinSize => true,
        Key::MaxSize => true,
        _ => false,
    }
}

/// Whether domains of the kind may have the attribute with a number.
fn is_numbered_key(holder: Holder, key: Key) -> bool
    ensures { result ≡ is_key (numbered_keys holder) key }
{
    match holder {
        Holder::Set => is_size_key(key),
        Holder::MSet => is_occurrence_key(key) || is_size_key(key),
        Holder::Function => is_size_key(key),
        Holder::Relation => is_size_key(key),
        Holder::BinaryRelation => is_size_key(key),
        Holder::Partition => is_part_key(key),
    }
}

/// Whether the attribute is one of how often members occur.
fn is_occurrence_key(key: Key) -> bool
    ensures { result ≡ is_key (Key.MinOccur ∷ Key.MaxOccur ∷ []) key }
{
    match key {
        Key::MinOccur => true,
        Key::MaxOccur => true,
        _ => false,
    }
}

/// Whether the attribute is one of parts.
fn is_part_key(key: Key) -> bool
    ensures { result ≡ is_key (numbered_keys Holder.Partition) key }
{
    match key {
        Key::NumParts => true,
        Key::MinNumParts => true,
        Key::MaxNumParts => true,
        Key::PartSize => true,
        Key::MinPartSize => true,
        Key::MaxPartSize => true,
        _ => false,
    }
}

/// Whether domains of the kind may have the attribute without a number.
fn is_flag_key(holder: Holder, key: Key) -> bool
    ensures { result ≡ is_key (flag_keys holder) key }
{
    match holder {
        Holder::Set => false,
        Holder::MSet => false,
        Holder::Function => is_function_key(key),
        Holder::Relation => false,
        Holder::BinaryRelation => is_binary_key(key),
        Holder::Partition => key == Key::Regular,
    }
}

/// Whether the attribute is one of functions.
fn is_function_key(key: Key) -> bool
    ensures { result ≡ is_key (flag_keys Holder.Function) key }
{
    match key {
        Key::Total => true,
        Key::Injective => true,
        Key::Surjective => true,
        Key::Bijective => true,
        _ => false,
    }
}

/// Whether the attribute is one of binary relations.
fn is_binary_key(key: Key) -> bool
    ensures { result ≡ is_key (flag_keys Holder.BinaryRelation) key }
{
    match key {
        Key::Reflexive => true,
        Key::Irreflexive => true,
        Key::Symmetric => true,
        Key::AntiSymmetric => true,
        Key::ASymmetric => true,
        Key::Transitive => true,
        _ => false,
    }
}

/// Whether domains of the kind may have the attribute, with its number or without one.
#[tactic(auto, using(crate::proofs::AttributeLemmas::flag_is, crate::proofs::AttributeLemmas::valued_is))]
fn mark_is_among(holder: Holder, attr: &Attr) -> bool
    ensures { result ≡ is_mark_among (numbered_keys holder) (flag_keys holder) (pure_attr attr.now).0 }
{
    match &attr.value {
        Some(_) => is_numbered_key(holder, attr.key),
        None => is_flag_key(holder, attr.key),
    }
}

/// Whether domains of the kind may have each of the attributes.
#[tactic(auto, using(crate::proofs::AttributeLemmas::among_more, crate::proofs::AttributeLemmas::among_none, crate::proofs::AttributeLemmas::among_all))]
fn marks_among(holder: Holder, attrs: &[Attr]) -> bool
    ensures { result ≡ are_marks_among (numbered_keys holder) (flag_keys holder) (words_of (map pure_attr attrs.now)) }
{
    for (i, attr) in attrs.iter().enumerate() {
        if !mark_is_among(holder, attr) {
            return false;
        }
    }
    true
}

/// Whether the attributes are those of a kind of domains, and none stands twice.
pub(crate) fn holder_fits(holder: Holder, attrs: &[Attr]) -> bool
    ensures { result ≡ (are_marks_among (numbered_keys holder) (flag_keys holder) (words_of (map pure_attr attrs.now)) && are_marks_distinct (words_of (map pure_attr attrs.now))) }
{
    marks_among(holder, attrs) && marks_distinct(attrs)
}
