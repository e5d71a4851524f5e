//! Partitions by the number of each member's part.
ghost use Rattle.std.specs.Prelude.{◌≡◌, suc, true, IfOk, map};
ghost use Rattle.ess_semantics.specs.Trees.{name_ex, ex2, name_pat, no_gens, over, cond};
ghost use Rattle.ess_semantics.specs.declared.words.Op2.TheVariants.{Lt};
ghost use Rattle.ess_core_nodes.specs.NodeViews.{pure_node, pure_nodes, pure_dom, pure_mark, pure_gens};
ghost use Rattle.ess_repr_laws.specs.PartitionParts.{part_number_ex, after_ex, numbered_on_ex, taken_ex, each_size_ex, part_key_ex, part_sizes_ex, numbered_ex};
ghost use Rattle.conjure_model_laws.specs.ToldApart.{reserved};

use crate::partition_parts::{regular_keys, size_of_name};
use crate::views::every_item;
use ess_core::{Key, Op2};
use ess_core_nodes::{Gen, Mark, Node, NodeDom};
use ess_node_building::{binary, number, truth};
use ess_rows::{Boxed, NoMemory, Row, Text};
use ess_structure_terms::{
    at_most, both, bound_name, cell_at, counted_on, each, either, equal, only_axis, over_one,
    size_key, some_over, where_holds, with_name,
};
use std::alloc::Global;

/// The number of the part of the value of the name of this number.
fn part_number(alloc: Global, level: u64, name: &Text, at: &[Node]) -> Result<Boxed<Node>, NoMemory>
    ensures { IfOk result (λ n. pure_node n ≡ part_number_ex reserved level name.now (pure_nodes at.now)) }
{
    let place = with_name(alloc, at, level)?;
    cell_at(alloc, false, name, place.as_slice())
}

/// Generators of the members before the one that the name of this number has.
fn members_before(alloc: Global, level: u64, member: &NodeDom) -> Result<Row<Gen>, NoMemory>
    ensures { IfOk result (λ gs. pure_gens gs ≡ over (name_pat (reserved (suc level))) (pure_dom member.now)
        (cond (ex2 true Lt (name_ex (reserved (suc level))) (name_ex (reserved level))) no_gens)) }
{
    let behind = counted_on(level)?;
    let other = bound_name(alloc, behind)?;
    let value = bound_name(alloc, level)?;
    let before = binary(alloc, true, Op2::Lt, other, value)?;
    let member = member.copy(alloc)?;
    where_holds(alloc, behind, member, before)
}

/// A member before the one that the name of this number has is in the part with the number before.
fn comes_after(
    alloc: Global,
    level: u64,
    member: &NodeDom,
    name: &Text,
    at: &[Node],
) -> Result<Boxed<Node>, NoMemory>
    ensures { IfOk result (λ n. pure_node n ≡ after_ex reserved level (pure_dom member.now) name.now (pure_nodes at.now)) }
{
    let part = part_number(alloc, level, name, at)?;
    let other = part_number(alloc, counted_on(level)?, name, at)?;
    let one = number(alloc, 1)?;
    let next = binary(alloc, false, Op2::Plus, other, one)?;
    let test = equal(alloc, part, next)?;
    let gens = members_before(alloc, level, member)?;
    some_over(alloc, test, gens)
}

/// The part of the member is one of the first so many, and is the first or comes after the part before it.
fn numbered_on(
    alloc: Global,
    level: u64,
    member: &NodeDom,
    count: &Node,
    name: &Text,
    at: &[Node],
) -> Result<Boxed<Node>, NoMemory>
    ensures { IfOk result (λ n. pure_node n ≡ numbered_on_ex reserved level (pure_dom member.now) (pure_node count.now) name.now
        (pure_nodes at.now)) }
{
    let part = part_number(alloc, level, name, at)?;
    let least = at_most(alloc, number(alloc, 1)?, part.get().copy(alloc)?)?;
    let greatest = at_most(alloc, part.get().copy(alloc)?, count.copy(alloc)?)?;
    let first = equal(alloc, number(alloc, 1)?, part)?;
    let after = comes_after(alloc, level, member, name, at)?;
    let inside = both(alloc, least, greatest)?;
    let order = either(alloc, first, after)?;
    both(alloc, inside, order)
}

/// The number is 0 or that of a part.
fn is_taken(
    alloc: Global,
    level: u64,
    member: &NodeDom,
    count: &Node,
    name: &Text,
    at: &[Node],
) -> Result<Boxed<Node>, NoMemory>
    ensures { IfOk result (λ n. pure_node n ≡ taken_ex reserved level (pure_dom member.now) (pure_node count.now) name.now (pure_nodes
        at.now)) }
{
    let none = equal(alloc, count.copy(alloc)?, number(alloc, 0)?)?;
    let part = part_number(alloc, level, name, at)?;
    let same = equal(alloc, part, count.copy(alloc)?)?;
    let gens = over_one(alloc, level, member)?;
    let some = some_over(alloc, same, gens)?;
    either(alloc, none, some)
}

/// What an attribute with a number asks of the size of each part that the view has, as this attribute of a set.
fn each_size(
    alloc: Global,
    level: u64,
    view: &Node,
    key: Key,
    bound: &Node,
) -> Result<Boxed<Node>, NoMemory>
    ensures { IfOk result (λ n. pure_node n ≡ each_size_ex reserved level (pure_node view.now) key (pure_node bound.now)) }
{
    let size = size_of_name(alloc, level)?;
    let test = size_key(alloc, key, bound, size.get())?;
    every_item(alloc, level, view, test)
}

/// What an attribute with a number asks of a partition with so many parts.
fn part_key(
    alloc: Global,
    level: u64,
    count: &Node,
    view: &Node,
    key: Key,
    bound: &Node,
) -> Result<Boxed<Node>, NoMemory>
    ensures { IfOk result (λ n. pure_node n ≡ part_key_ex reserved level (pure_node count.now) (pure_node view.now) key (pure_node
        bound.now)) }
{
    match key {
        Key::NumParts => size_key(alloc, Key::Size, bound, count),
        Key::MinNumParts => size_key(alloc, Key::MinSize, bound, count),
        Key::MaxNumParts => size_key(alloc, Key::MaxSize, bound, count),
        Key::PartSize => each_size(alloc, level, view, Key::Size, bound),
        Key::MinPartSize => each_size(alloc, level, view, Key::MinSize, bound),
        Key::MaxPartSize => each_size(alloc, level, view, Key::MaxSize, bound),
        _ => truth(alloc, true),
    }
}

/// What all attributes with a number ask of it.
fn part_sizes(
    alloc: Global,
    level: u64,
    count: &Node,
    view: &Node,
    marks: &[Mark],
    numbers: &[Node],
) -> Result<Boxed<Node>, NoMemory>
    ensures { IfOk result (λ n. pure_node n ≡ part_sizes_ex reserved level (pure_node count.now) (pure_node view.now) (map pure_mark
        marks.now)
        (pure_nodes numbers.now)) }
{
    match marks.split_first() {
        None => truth(alloc, true),
        Some((Mark::Flag(_), rest)) => part_sizes(alloc, level, count, view, rest, numbers),
        Some((Mark::Valued(key), rest)) => match numbers.split_first() {
            None => truth(alloc, true),
            Some((bound, more)) => {
                let here = part_key(alloc, level, count, view, *key, bound)?;
                let others = part_sizes(alloc, level, count, view, rest, more)?;
                both(alloc, here, others)
            }
        },
    }
}

/// The number of each member's part: parts are numbered by their least members, and all numbers up to that of the parts are taken. The
/// view has the attributes. `NoMemory` where there is no room for it.
pub fn numbered(
    alloc: Global,
    level: u64,
    marks: &[Mark],
    numbers: &[Node],
    member: &NodeDom,
    count: &Node,
    name: &Text,
    at: &[Node],
    view: &Node,
) -> Result<Boxed<Node>, NoMemory>
    ensures { IfOk result (λ n. pure_node n ≡ numbered_ex reserved level (map pure_mark marks.now) (pure_nodes numbers.now) (pure_dom
        member.now)
        (pure_node count.now) name.now (pure_nodes at.now) (pure_node view.now)) }
{
    let axes = only_axis(alloc, member)?;
    let each = each(
        alloc,
        level,
        axes.as_slice(),
        numbered_on(alloc, level, member, count, name, at)?,
    )?;
    let taken = is_taken(alloc, level, member, count, name, at)?;
    let numbered = both(alloc, each, taken)?;
    let sizes = part_sizes(alloc, level, count, view, marks, numbers)?;
    let regular = regular_keys(alloc, level, view, marks)?;
    let asked = both(alloc, sizes, regular)?;
    both(alloc, numbered, asked)
}
