//! Multisets in slots up to a marker, in which equal members may stand.
ghost use Rattle.std.specs.Prelude.{◌≡◌, suc, false, IfOk, map};
ghost use Rattle.ess_semantics.specs.Trees.{name_ex, fun1};
ghost use Rattle.ess_semantics.specs.declared.words.Fun.TheVariants.{ToSet};
ghost use Rattle.ess_core_nodes.specs.NodeViews.{pure_node, pure_nodes, pure_mark};
ghost use Rattle.ess_repr_laws.specs.StructureParts.{add_ex, next_ex, at_most_ex};
ghost use Rattle.ess_repr_laws.specs.ViewParts.{every_item_ex};
ghost use Rattle.ess_repr_laws.specs.MultisetParts.{freq_ex, occurs_key_ex, occurs_ex, repetition_ex};
ghost use Rattle.conjure_model_laws.specs.ToldApart.{reserved};
ghost use Rattle.ess_structure_terms.specs.ShapeViews.{pure_shapes};

use crate::views::every_item;
use ess_core::{Fun, Key};
use ess_core_nodes::{Mark, Node, Op};
use ess_node_building::{literal, truth, two, word};
use ess_rows::{Boxed, NoMemory, Text};
use ess_structure_terms::{
    Shape, at_most, both, bound_name, cell_at, counted_on, is_next_used, is_used, not_above, sizes,
    slots_in_use, with_name, with_next,
};
use std::alloc::Global;

/// How often the value of the name of this number occurs in the multiset that the view is.
fn frequency(alloc: Global, level: u64, view: &Node) -> Result<Boxed<Node>, NoMemory>
    ensures { IfOk result (λ n. pure_node n ≡ freq_ex reserved level (pure_node view.now)) }
{
    let value = bound_name(alloc, level)?;
    let view = view.copy(alloc)?;
    let operands = two(alloc, view, value)?;
    literal(alloc, Op::Word(Fun::Freq), operands)
}

/// The test holds of each member of the multiset.
fn every_member(
    alloc: Global,
    level: u64,
    view: &Node,
    test: Boxed<Node>,
) -> Result<Boxed<Node>, NoMemory>
    ensures { IfOk result (λ n. pure_node n ≡ every_item_ex reserved level (fun1 false ToSet (pure_node view.now)) (pure_node test)) }
{
    let view = view.copy(alloc)?;
    let members = word(alloc, false, Fun::ToSet, view)?;
    every_item(alloc, level, members.get(), test)
}

/// What an attribute with a number asks of each member of the multiset.
fn occurs_key(
    alloc: Global,
    level: u64,
    view: &Node,
    key: Key,
    bound: &Node,
) -> Result<Boxed<Node>, NoMemory>
    ensures { IfOk result (λ n. pure_node n ≡ occurs_key_ex reserved level (pure_node view.now) key (pure_node bound.now)) }
{
    match key {
        Key::MinOccur => {
            let times = frequency(alloc, level, view)?;
            let test = at_most(alloc, bound.copy(alloc)?, times)?;
            every_member(alloc, level, view, test)
        }
        Key::MaxOccur => {
            let times = frequency(alloc, level, view)?;
            let test = at_most(alloc, times, bound.copy(alloc)?)?;
            every_member(alloc, level, view, test)
        }
        _ => truth(alloc, true),
    }
}

/// What all attributes with a number ask of each member.
fn occurs(
    alloc: Global,
    level: u64,
    view: &Node,
    marks: &[Mark],
    numbers: &[Node],
) -> Result<Boxed<Node>, NoMemory>
    ensures { IfOk result (λ n. pure_node n ≡ occurs_ex reserved level (pure_node view.now) (map pure_mark marks.now) (pure_nodes
        numbers.now)) }
{
    match marks.split_first() {
        None => truth(alloc, true),
        Some((Mark::Flag(_), rest)) => occurs(alloc, level, view, rest, numbers),
        Some((Mark::Valued(key), rest)) => match numbers.split_first() {
            None => truth(alloc, true),
            Some((bound, more)) => {
                let here = occurs_key(alloc, level, view, *key, bound)?;
                let others = occurs(alloc, level, view, rest, more)?;
                both(alloc, here, others)
            }
        },
    }
}

/// The cells in the slot that the name of this number has aren't above those in the next one.
fn stays_or_rises(
    alloc: Global,
    level: u64,
    shapes: &[Shape],
    at: &[Node],
) -> Result<Boxed<Node>, NoMemory>
    ensures { IfOk result (λ n. pure_node n ≡ at_most_ex reserved (suc level) (pure_shapes shapes.now)
        (add_ex (pure_nodes at.now) (name_ex (reserved level))) (add_ex (pure_nodes at.now) (next_ex reserved level))) }
{
    let behind = counted_on(level)?;
    let here = with_name(alloc, at, level)?;
    let next = with_next(alloc, at, level)?;
    not_above(alloc, behind, shapes, here.as_slice(), next.as_slice())
}

/// Slots up to a marker, in which equal members may stand. The view has what attributes ask of each member. `NoMemory` where there is
/// no room for it.
pub fn repetition(
    alloc: Global,
    level: u64,
    marks: &[Mark],
    numbers: &[Node],
    size: &Node,
    name: &Text,
    shapes: &[Shape],
    at: &[Node],
    view: &Node,
    part: Boxed<Node>,
) -> Result<Boxed<Node>, NoMemory>
    ensures { IfOk result (λ n. pure_node n ≡ repetition_ex reserved level (map pure_mark marks.now) (pure_nodes numbers.now)
        (pure_node size.now)
        name.now (pure_shapes shapes.now) (pure_nodes at.now) (pure_node view.now) (pure_node part)) }
{
    let used = cell_at(alloc, false, name, at)?;
    let here = is_used(alloc, level, used.get())?;
    let next = is_next_used(alloc, level, used.get())?;
    let rise = stays_or_rises(alloc, level, shapes, at)?;
    let slots = slots_in_use(
        alloc,
        level,
        size,
        here.get(),
        next.get(),
        rise,
        shapes,
        at,
        part,
    )?;
    let sizes = sizes(alloc, marks, numbers, used.get())?;
    let occurs = occurs(alloc, level, view, marks, numbers)?;
    let asked = both(alloc, sizes, occurs)?;
    both(alloc, slots, asked)
}
