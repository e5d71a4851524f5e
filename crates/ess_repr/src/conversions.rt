//! The domains of a value that is kept as a relation or a set: its sizes become attributes.
ghost use Rattle.std.specs.Prelude.{◌≡◌, IfOk, OnOk, ◌∷◌, [], ◌++◌, ◌||◌, if◌then◌else◌, Some, map, option_map};
ghost use Rattle.ess_semantics.specs.declared.words.Key.TheVariants.{Size, MaxSize, Total, NumParts, MaxNumParts};
ghost use Rattle.ess_semantics.specs.Kinds.{has_key as has_the_key};
ghost use Rattle.ess_core.specs.TreeViews.{words_of, within, exs_of, pure_attr, pure_ex, pure_dom, pure_doms};
ghost use Rattle.ess_repr_laws.specs.StructureParts.{tuple_set_dom};
ghost use Rattle.ess_repr_laws.specs.ViewParts.{pair_relation_dom, part_dom, part_set_dom};
ghost use Rattle.ess_repr_declare_laws.specs.SizeTerms.{number_of as number_in, bound_ex, size_terms};
ghost use Rattle.ess_repr.specs.Sized.{marks_with, numbers_with, size_marks_with, size_numbers_with};

use crate::attributes::{has_key, value_of};
use crate::doms::{boxed, several, two};
use crate::sizes::bound;
use crate::terms::copied;
use ess_core::{Attr, Boxed, Dom, Ex, Key, NoMemory, Row};
use std::alloc::Global;

/// A copy of the number of an attribute, where it stands with one.
fn number_of(alloc: Global, attrs: &[Attr], key: Key) -> Result<Option<Boxed<Ex>>, NoMemory>
    ensures { IfOk result (λ o. option_map pure_ex o ≡ number_in key (words_of (map pure_attr attrs.now))
        (exs_of (within (map pure_attr attrs.now)))) }
{
    match value_of(attrs, key) {
        Some(value) => match copied(alloc, value) {
            Ok(copy) => Ok(Some(copy)),
            Err(no) => Err(no),
        },
        None => Ok(None),
    }
}

/// Puts an attribute behind the others, where its number is there. `NoMemory` where there is no room for it.
#[tactic(auto, using(crate::proofs::SizedRows::put_marks, crate::proofs::SizedRows::put_numbers, crate::proofs::SizedRows::same_marks, crate::proofs::SizedRows::same_numbers))]
fn put(attrs: &mut Row<Attr>, key: Key, number: Option<Boxed<Ex>>) -> Result<(), NoMemory>
    ensures marks { OnOk result (words_of (map pure_attr attrs.new)
        ≡ words_of (map pure_attr attrs.old) ++ marks_with key (option_map pure_ex number)) }
    ensures numbers { OnOk result (within (map pure_attr attrs.new)
        ≡ within (map pure_attr attrs.old) ++ numbers_with (option_map pure_ex number)) }
{
    match number {
        Some(number) => {
            let value = Some(number.into_inner());
            attrs.push(Attr { key, value })
        }
        None => Ok(()),
    }
}

/// `size`, `minSize` and `maxSize`, as far as their numbers are there.
fn sizes(
    alloc: Global,
    size: Option<Boxed<Ex>>,
    least: Option<Boxed<Ex>>,
    greatest: Option<Boxed<Ex>>,
) -> Result<Row<Attr>, NoMemory>
    ensures marks { IfOk result (λ ms. words_of (map pure_attr ms)
        ≡ size_marks_with (option_map pure_ex size) (option_map pure_ex least) (option_map pure_ex greatest)) }
    ensures numbers { IfOk result (λ ms. within (map pure_attr ms)
        ≡ size_numbers_with (option_map pure_ex size) (option_map pure_ex least) (option_map pure_ex greatest)) }
{
    let mut attrs = Row::new(alloc);
    put(&mut attrs, Key::Size, size)?;
    put(&mut attrs, Key::MinSize, least)?;
    put(&mut attrs, Key::MaxSize, greatest)?;
    Ok(attrs)
}

/// The relation of a function's pairs, alone in a row. A total function has as many pairs as its first domain has members, any
/// other one without `size` and `maxSize` at most that many.
#[tactic(auto, using(crate::proofs::SizedRows::pairs_made))]
pub(crate) fn pair_relation(
    alloc: Global,
    attrs: &[Attr],
    from: &Dom,
    to: &Dom,
) -> Result<Row<Dom>, NoMemory>
    ensures { IfOk result (λ ds. map pure_dom ds ≡ pair_relation_dom size_terms (words_of (map pure_attr attrs.now))
        (exs_of (within (map pure_attr attrs.now))) (pure_dom from.now) (pure_dom to.now) ∷ []) }
{
    let size = size_of_pairs(alloc, attrs, from)?;
    let least = number_of(alloc, attrs, Key::MinSize)?;
    let greatest = greatest_of_pairs(alloc, attrs, from)?;
    let sizes = sizes(alloc, size, least, greatest)?;
    let parts = two(alloc, from, to)?;
    Row::from_array(alloc, [Dom::Relation(sizes, parts)])
}

/// The number of pairs of a function, where it is known.
#[tactic(auto, using(crate::proofs::SizedRows::if_yes, crate::proofs::SizedRows::if_no))]
fn size_of_pairs(alloc: Global, attrs: &[Attr], from: &Dom) -> Result<Option<Boxed<Ex>>, NoMemory>
    ensures { IfOk result (λ o. option_map pure_ex o ≡ (if has_the_key Total (words_of (map pure_attr attrs.now)) then Some
        (bound_ex (pure_dom from.now)) else number_in Size (words_of (map pure_attr attrs.now))
        (exs_of (within (map pure_attr attrs.now))))) }
{
    if has_key(attrs, Key::Total) {
        return match bound(alloc, from) {
            Ok(size) => Ok(Some(size)),
            Err(no) => Err(no),
        };
    }
    number_of(alloc, attrs, Key::Size)
}

/// The greatest number of pairs of a function, where it is asked for or the number isn't known.
#[tactic(auto, using(crate::proofs::SizedRows::if_yes, crate::proofs::SizedRows::if_no))]
fn greatest_of_pairs(
    alloc: Global,
    attrs: &[Attr],
    from: &Dom,
) -> Result<Option<Boxed<Ex>>, NoMemory>
    ensures { IfOk result (λ o. option_map pure_ex o ≡ (if has_the_key MaxSize (words_of (map pure_attr attrs.now)) ||
        (has_the_key Total (words_of (map pure_attr attrs.now)) || has_the_key Size
        (words_of (map pure_attr attrs.now))) then number_in MaxSize (words_of (map pure_attr attrs.now))
        (exs_of (within (map pure_attr attrs.now))) else Some (bound_ex (pure_dom from.now)))) }
{
    let known = has_key(attrs, Key::Total) || has_key(attrs, Key::Size);
    if has_key(attrs, Key::MaxSize) || known {
        return number_of(alloc, attrs, Key::MaxSize);
    }
    match bound(alloc, from) {
        Ok(size) => Ok(Some(size)),
        Err(no) => Err(no),
    }
}

/// The set of a relation's tuples, alone in a row.
#[tactic(auto, using(crate::proofs::SizedRows::tuples_made))]
pub(crate) fn tuple_set(alloc: Global, attrs: &[Attr], parts: &[Dom]) -> Result<Row<Dom>, NoMemory>
    ensures { IfOk result (λ ds. map pure_dom ds ≡ tuple_set_dom (words_of (map pure_attr attrs.now))
        (exs_of (within (map pure_attr attrs.now))) (pure_doms parts.now) ∷ []) }
{
    let size = number_of(alloc, attrs, Key::Size)?;
    let least = number_of(alloc, attrs, Key::MinSize)?;
    let greatest = number_of(alloc, attrs, Key::MaxSize)?;
    let sizes = sizes(alloc, size, least, greatest)?;
    let parts = several(alloc, parts)?;
    let tuple = Boxed::new(alloc, Dom::Tuple(parts))?;
    Row::from_array(alloc, [Dom::Set(sizes, tuple)])
}

/// The set of a partition's parts, alone in a row. Without `numParts` and `maxNumParts` there are at most as many as its domain has
/// members.
#[tactic(auto, using(crate::proofs::SizedRows::parts_made))]
pub(crate) fn part_sets(alloc: Global, attrs: &[Attr], member: &Dom) -> Result<Row<Dom>, NoMemory>
    ensures { IfOk result (λ ds. map pure_dom ds ≡ part_set_dom size_terms (words_of (map pure_attr attrs.now))
        (exs_of (within (map pure_attr attrs.now))) (pure_dom member.now) ∷ []) }
{
    let size = number_of(alloc, attrs, Key::NumParts)?;
    let least = number_of(alloc, attrs, Key::MinNumParts)?;
    let greatest = greatest_of_parts(alloc, attrs, member)?;
    let sizes = sizes(alloc, size, least, greatest)?;
    let part = part(alloc, attrs, member)?;
    Row::from_array(alloc, [Dom::Set(sizes, part)])
}

/// The greatest number of parts, where it is asked for or their number isn't known.
#[tactic(auto, using(crate::proofs::SizedRows::if_yes, crate::proofs::SizedRows::if_no))]
fn greatest_of_parts(
    alloc: Global,
    attrs: &[Attr],
    member: &Dom,
) -> Result<Option<Boxed<Ex>>, NoMemory>
    ensures { IfOk result (λ o. option_map pure_ex o ≡ (if has_the_key MaxNumParts
        (words_of (map pure_attr attrs.now)) || has_the_key NumParts (words_of (map pure_attr attrs.now)) then number_in MaxNumParts
        (words_of (map pure_attr attrs.now)) (exs_of (within (map pure_attr attrs.now))) else Some (bound_ex (pure_dom member.now)))) }
{
    if has_key(attrs, Key::MaxNumParts) || has_key(attrs, Key::NumParts) {
        return number_of(alloc, attrs, Key::MaxNumParts);
    }
    match bound(alloc, member) {
        Ok(size) => Ok(Some(size)),
        Err(no) => Err(no),
    }
}

/// A part of a partition: a set with the sizes of parts.
#[tactic(auto, using(crate::proofs::SizedRows::part_made))]
fn part(alloc: Global, attrs: &[Attr], member: &Dom) -> Result<Boxed<Dom>, NoMemory>
    ensures { IfOk result (λ d. pure_dom d ≡ part_dom (words_of (map pure_attr attrs.now)) (exs_of (within (map pure_attr attrs.now)))
        (pure_dom member.now)) }
{
    let size = number_of(alloc, attrs, Key::PartSize)?;
    let least = number_of(alloc, attrs, Key::MinPartSize)?;
    let greatest = number_of(alloc, attrs, Key::MaxPartSize)?;
    let sizes = sizes(alloc, size, least, greatest)?;
    let member = boxed(alloc, member)?;
    Boxed::new(alloc, Dom::Set(sizes, member))
}
