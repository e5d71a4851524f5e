//! The domains of a value that is kept as a relation or a set: its sizes become attributes.
ghost use Rattle.std.specs.Prelude.{◌≡◌, IfOk, OnOk, ◌++◌, ◌||◌, if◌then◌else◌, Some, map, option_map};
ghost use Rattle.ess_semantics.specs.declared.words.Key.TheVariants.{Size, MaxSize, Total, NumParts, MaxNumParts};
ghost use Rattle.ess_semantics.specs.Kinds.{has_key as has_the_key};
ghost use Rattle.ess_semantics.specs.Trees.{relation_dom, set_dom, tuple_dom, more_doms, no_doms};
ghost use Rattle.ess_core_nodes.specs.NodeViews.{pure_node, pure_nodes, pure_dom, pure_doms, pure_mark};
ghost use Rattle.ess_repr_laws.specs.StructureParts.{tuple_set_dom};
ghost use Rattle.ess_repr_laws.specs.ViewParts.{pair_relation_dom, part_dom, part_set_dom};
ghost use Rattle.ess_repr_declare_laws.specs.SizeTerms.{number_of as number_in, bound_ex, size_terms};
ghost use Rattle.ess_structure_domains.specs.Sized.{marks_with, numbers_with, size_marks_with, size_numbers_with};

use ess_core::Key;
use ess_core_nodes::{Mark, Node, NodeDom, copy_doms};
use ess_rows::{Boxed, NoMemory, Row};
use ess_size_terms::{bound, has_key, number_of};
use std::alloc::Global;

/// A copy of the number of an attribute, where it stands with one.
fn copied(
    alloc: Global,
    marks: &[Mark],
    numbers: &[Node],
    key: Key,
) -> Result<Option<Boxed<Node>>, NoMemory>
    ensures { IfOk result (λ o. option_map pure_node o ≡ number_in key (map pure_mark marks.now) (pure_nodes numbers.now)) }
{
    match number_of(marks, numbers, key) {
        Some(number) => match number.copy(alloc) {
            Ok(copy) => Ok(Some(copy)),
            Err(no) => Err(no),
        },
        None => Ok(None),
    }
}

/// Puts an attribute behind the others, where its number is there. `NoMemory` where there is no room for it.
#[tactic(auto, using(crate::proofs::SizedRows::nothing_put))]
fn put(
    marks: &mut Row<Mark>,
    numbers: &mut Row<Node>,
    key: Key,
    number: Option<Boxed<Node>>,
) -> Result<(), NoMemory>
    ensures marks { OnOk result (map pure_mark marks.new ≡ map pure_mark marks.old ++ marks_with key (option_map pure_node number)) }
    ensures numbers { OnOk result (map pure_node numbers.new ≡ map pure_node numbers.old ++ numbers_with (option_map pure_node number)) }
{
    match number {
        Some(number) => {
            numbers.push(number.into_inner())?;
            marks.push(Mark::Valued(key))
        }
        None => Ok(()),
    }
}

/// `size`, `minSize` and `maxSize`, as far as their numbers are there.
fn sizes(
    alloc: Global,
    size: Option<Boxed<Node>>,
    least: Option<Boxed<Node>>,
    greatest: Option<Boxed<Node>>,
) -> Result<(Row<Mark>, Row<Node>), NoMemory>
    ensures marks { IfOk result (λ r. map pure_mark r.0
        ≡ size_marks_with (option_map pure_node size) (option_map pure_node least) (option_map pure_node greatest)) }
    ensures numbers { IfOk result (λ r. map pure_node r.1
        ≡ size_numbers_with (option_map pure_node size) (option_map pure_node least) (option_map pure_node greatest)) }
{
    let mut marks = Row::new(alloc);
    let mut numbers = Row::new(alloc);
    put(&mut marks, &mut numbers, Key::Size, size)?;
    put(&mut marks, &mut numbers, Key::MinSize, least)?;
    put(&mut marks, &mut numbers, Key::MaxSize, greatest)?;
    Ok((marks, numbers))
}

/// The number of pairs of a function, where it is known.
#[tactic(auto, using(crate::proofs::SizedRows::if_yes, crate::proofs::SizedRows::if_no))]
fn size_of_pairs(
    alloc: Global,
    marks: &[Mark],
    numbers: &[Node],
    from: &NodeDom,
) -> Result<Option<Boxed<Node>>, NoMemory>
    ensures { IfOk result (λ o. option_map pure_node o ≡ (if has_the_key Total (map pure_mark marks.now) then Some
        (bound_ex (pure_dom from.now)) else number_in Size (map pure_mark marks.now) (pure_nodes numbers.now))) }
{
    if has_key(marks, Key::Total) {
        return match bound(alloc, from) {
            Ok(size) => Ok(Some(size)),
            Err(no) => Err(no),
        };
    }
    copied(alloc, marks, numbers, Key::Size)
}

/// The greatest number of pairs of a function, where it is asked for or the number isn't known.
#[tactic(auto, using(crate::proofs::SizedRows::if_yes, crate::proofs::SizedRows::if_no))]
fn greatest_of_pairs(
    alloc: Global,
    marks: &[Mark],
    numbers: &[Node],
    from: &NodeDom,
) -> Result<Option<Boxed<Node>>, NoMemory>
    ensures { IfOk result (λ o. option_map pure_node o ≡ (if has_the_key MaxSize (map pure_mark marks.now) ||
        (has_the_key Total (map pure_mark marks.now) || has_the_key Size (map pure_mark marks.now)) then number_in MaxSize
        (map pure_mark marks.now) (pure_nodes numbers.now) else Some (bound_ex (pure_dom from.now)))) }
{
    let known = has_key(marks, Key::Total) || has_key(marks, Key::Size);
    if has_key(marks, Key::MaxSize) || known {
        return copied(alloc, marks, numbers, Key::MaxSize);
    }
    match bound(alloc, from) {
        Ok(size) => Ok(Some(size)),
        Err(no) => Err(no),
    }
}

/// The relation of a function's pairs. A total function has as many pairs as its first domain has members, any other one without
/// `size` and `maxSize` at most that many.
pub fn pair_relation(
    alloc: Global,
    marks: &[Mark],
    numbers: &[Node],
    from: &NodeDom,
    to: &NodeDom,
) -> Result<Boxed<NodeDom>, NoMemory>
    ensures { IfOk result (λ d. pure_dom d ≡ pair_relation_dom size_terms (map pure_mark marks.now) (pure_nodes numbers.now)
        (pure_dom from.now) (pure_dom to.now)) }
{
    let size = size_of_pairs(alloc, marks, numbers, from)?;
    let least = copied(alloc, marks, numbers, Key::MinSize)?;
    let greatest = greatest_of_pairs(alloc, marks, numbers, from)?;
    let (keys, bounds) = sizes(alloc, size, least, greatest)?;
    let made = sized_relation(alloc, keys, bounds, from, to)?;
    Ok(made)
}

/// A relation of pairs with these attributes.
fn sized_relation(
    alloc: Global,
    marks: Row<Mark>,
    numbers: Row<Node>,
    from: &NodeDom,
    to: &NodeDom,
) -> Result<Boxed<NodeDom>, NoMemory>
    ensures { IfOk result (λ d. pure_dom d ≡ relation_dom (map pure_mark marks) (pure_nodes numbers)
        (more_doms (pure_dom from.now) (more_doms (pure_dom to.now) no_doms))) }
{
    let from = from.copy(alloc)?;
    let to = to.copy(alloc)?;
    let parts = Row::from_array(alloc, [from.into_inner(), to.into_inner()])?;
    Boxed::new(alloc, NodeDom::Relation(marks, numbers, parts))
}

/// A set with these attributes.
fn sized_set(
    alloc: Global,
    marks: Row<Mark>,
    numbers: Row<Node>,
    member: Boxed<NodeDom>,
) -> Result<Boxed<NodeDom>, NoMemory>
    ensures { IfOk result (λ d. pure_dom d ≡ set_dom (map pure_mark marks) (pure_nodes numbers) (pure_dom member)) }
{
    Boxed::new(alloc, NodeDom::Set(marks, numbers, member))
}

/// Tuples over copies of these domains.
fn tuple_over(alloc: Global, parts: &[NodeDom]) -> Result<Boxed<NodeDom>, NoMemory>
    ensures { IfOk result (λ d. pure_dom d ≡ tuple_dom (pure_doms parts.now)) }
{
    let parts = copy_doms(alloc, parts)?;
    Boxed::new(alloc, NodeDom::Tuple(parts))
}

/// The set of a relation's tuples.
pub fn tuple_set(
    alloc: Global,
    marks: &[Mark],
    numbers: &[Node],
    parts: &[NodeDom],
) -> Result<Boxed<NodeDom>, NoMemory>
    ensures { IfOk result (λ d. pure_dom d ≡ tuple_set_dom (map pure_mark marks.now) (pure_nodes numbers.now) (pure_doms parts.now)) }
{
    let size = copied(alloc, marks, numbers, Key::Size)?;
    let least = copied(alloc, marks, numbers, Key::MinSize)?;
    let greatest = copied(alloc, marks, numbers, Key::MaxSize)?;
    let (keys, bounds) = sizes(alloc, size, least, greatest)?;
    let tuple = tuple_over(alloc, parts)?;
    let made = sized_set(alloc, keys, bounds, tuple)?;
    Ok(made)
}

/// The greatest number of parts, where it is asked for or their number isn't known.
#[tactic(auto, using(crate::proofs::SizedRows::if_yes, crate::proofs::SizedRows::if_no))]
fn greatest_of_parts(
    alloc: Global,
    marks: &[Mark],
    numbers: &[Node],
    member: &NodeDom,
) -> Result<Option<Boxed<Node>>, NoMemory>
    ensures { IfOk result (λ o. option_map pure_node o ≡ (if has_the_key MaxNumParts (map pure_mark marks.now)
        || has_the_key NumParts (map pure_mark marks.now) then number_in MaxNumParts (map pure_mark marks.now)
        (pure_nodes numbers.now) else Some (bound_ex (pure_dom member.now)))) }
{
    if has_key(marks, Key::MaxNumParts) || has_key(marks, Key::NumParts) {
        return copied(alloc, marks, numbers, Key::MaxNumParts);
    }
    match bound(alloc, member) {
        Ok(size) => Ok(Some(size)),
        Err(no) => Err(no),
    }
}

/// A part of a partition: a set with the sizes of parts.
fn part(
    alloc: Global,
    marks: &[Mark],
    numbers: &[Node],
    member: &NodeDom,
) -> Result<Boxed<NodeDom>, NoMemory>
    ensures { IfOk result (λ d. pure_dom d ≡ part_dom (map pure_mark marks.now) (pure_nodes numbers.now) (pure_dom member.now)) }
{
    let size = copied(alloc, marks, numbers, Key::PartSize)?;
    let least = copied(alloc, marks, numbers, Key::MinPartSize)?;
    let greatest = copied(alloc, marks, numbers, Key::MaxPartSize)?;
    let (keys, bounds) = sizes(alloc, size, least, greatest)?;
    let copy = member.copy(alloc)?;
    let made = sized_set(alloc, keys, bounds, copy)?;
    Ok(made)
}

/// The set of a partition's parts. Without `numParts` and `maxNumParts` there are at most as many as its domain has members.
pub fn part_sets(
    alloc: Global,
    marks: &[Mark],
    numbers: &[Node],
    member: &NodeDom,
) -> Result<Boxed<NodeDom>, NoMemory>
    ensures { IfOk result (λ d. pure_dom d ≡ part_set_dom size_terms (map pure_mark marks.now) (pure_nodes numbers.now) (pure_dom
        member.now)) }
{
    let part = part(alloc, marks, numbers, member)?;
    let size = copied(alloc, marks, numbers, Key::NumParts)?;
    let least = copied(alloc, marks, numbers, Key::MinNumParts)?;
    let greatest = greatest_of_parts(alloc, marks, numbers, member)?;
    let (keys, bounds) = sizes(alloc, size, least, greatest)?;
    let made = sized_set(alloc, keys, bounds, part)?;
    Ok(made)
}
