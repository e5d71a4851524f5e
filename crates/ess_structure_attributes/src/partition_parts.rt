//! What makes sets the parts of a partition, as a view has them.
ghost use Rattle.std.specs.Prelude.{◌≡◌, pos, true, false, IfOk, map};
ghost use Rattle.ess_semantics.specs.Trees.{number_ex, name_ex, comp_ex, ex1, ex2, fun1, over, name_pat, no_gens};
ghost use Rattle.ess_semantics.specs.declared.words.Op1.TheVariants.{Bar};
ghost use Rattle.ess_semantics.specs.declared.words.Op2.TheVariants.{Eq};
ghost use Rattle.ess_semantics.specs.declared.words.Fun.TheVariants.{And};
ghost use Rattle.ess_core_nodes.specs.NodeViews.{pure_node, pure_dom, pure_mark};
ghost use Rattle.ess_repr_laws.specs.StructureParts.{le_ex, keys_ex};
ghost use Rattle.ess_repr_laws.specs.ViewParts.{each_item, regular_key_ex, times_held_ex, one_size_ex, parts_ex};
ghost use Rattle.conjure_model_laws.specs.ToldApart.{reserved};

use crate::views::{every_item, items};
use ess_core::{Key, Op2};
use ess_core_nodes::{Mark, Node, NodeDom};
use ess_node_building::{binary, number, truth};
use ess_rows::{Boxed, NoMemory};
use ess_structure_terms::{
    all_over, at_most, both, bound_name, count_over, counted_on, equal, over_one, size_of,
};
use std::alloc::Global;

/// How many of the sets that the view has the value of the name of this number is in.
fn times_held(alloc: Global, level: u64, view: &Node) -> Result<Boxed<Node>, NoMemory>
    ensures { IfOk result (λ n. pure_node n ≡ times_held_ex reserved level (pure_node view.now)) }
{
    let behind = counted_on(level)?;
    let value = bound_name(alloc, level)?;
    let part = bound_name(alloc, behind)?;
    let held = binary(alloc, true, Op2::Member, value, part)?;
    let gens = items(alloc, behind, view)?;
    count_over(alloc, held, gens)
}

/// The size of the set that the name of this number has.
pub(crate) fn size_of_name(alloc: Global, level: u64) -> Result<Boxed<Node>, NoMemory>
    ensures { IfOk result (λ n. pure_node n ≡ ex1 false Bar (name_ex (reserved level))) }
{
    let set = bound_name(alloc, level)?;
    size_of(alloc, set)
}

/// The sets that the view has are of one size.
fn one_size(alloc: Global, level: u64, view: &Node) -> Result<Boxed<Node>, NoMemory>
    ensures { IfOk result (λ n. pure_node n ≡ one_size_ex reserved level (pure_node view.now)) }
{
    let behind = counted_on(level)?;
    let first = size_of_name(alloc, level)?;
    let second = size_of_name(alloc, behind)?;
    let same = equal(alloc, first, second)?;
    let all = every_item(alloc, behind, view, same)?;
    every_item(alloc, level, view, all)
}

/// What an attribute without a number asks of the sets that the view has.
fn regular_key(alloc: Global, level: u64, view: &Node, key: Key) -> Result<Boxed<Node>, NoMemory>
    ensures { IfOk result (λ n. pure_node n ≡ regular_key_ex (one_size_ex reserved level (pure_node view.now)) key) }
{
    match key {
        Key::Regular => one_size(alloc, level, view),
        _ => truth(alloc, true),
    }
}

/// What all attributes without a number ask of them.
pub(crate) fn regular_keys(
    alloc: Global,
    level: u64,
    view: &Node,
    marks: &[Mark],
) -> Result<Boxed<Node>, NoMemory>
    ensures { IfOk result (λ n. pure_node n ≡ keys_ex (regular_key_ex (one_size_ex reserved level (pure_node view.now))) (map pure_mark
        marks.now)) }
{
    match marks.split_first() {
        None => truth(alloc, true),
        Some((Mark::Flag(key), rest)) => {
            let here = regular_key(alloc, level, view, *key)?;
            let others = regular_keys(alloc, level, view, rest)?;
            both(alloc, here, others)
        }
        Some((Mark::Valued(_), rest)) => regular_keys(alloc, level, view, rest),
    }
}

/// Each value of the domain is in one of the sets.
fn held_once(
    alloc: Global,
    level: u64,
    member: &NodeDom,
    view: &Node,
) -> Result<Boxed<Node>, NoMemory>
    ensures { IfOk result (λ n. pure_node n ≡ fun1 true And (comp_ex (ex2 true Eq (times_held_ex reserved level (pure_node view.now))
        (number_ex (pos 1)))
        (over (name_pat (reserved level)) (pure_dom member.now) no_gens))) }
{
    let times = times_held(alloc, level, view)?;
    let one = number(alloc, 1)?;
    let once = equal(alloc, times, one)?;
    let gens = over_one(alloc, level, member)?;
    all_over(alloc, once, gens)
}

/// None of the sets is empty.
fn none_empty(alloc: Global, level: u64, view: &Node) -> Result<Boxed<Node>, NoMemory>
    ensures { IfOk result (λ n. pure_node n ≡ fun1 true And (comp_ex (le_ex (number_ex (pos 1)) (ex1 false Bar (name_ex (reserved
        level))))
        (each_item reserved level (pure_node view.now) no_gens))) }
{
    let one = number(alloc, 1)?;
    let size = size_of_name(alloc, level)?;
    let some = at_most(alloc, one, size)?;
    every_item(alloc, level, view, some)
}

/// The sets that the view has are the parts of a partition of the domain with these attributes: each value is in one of them, and none
/// is empty. `NoMemory` where there is no room for it.
pub fn parts(
    alloc: Global,
    level: u64,
    marks: &[Mark],
    member: &NodeDom,
    view: &Node,
) -> Result<Boxed<Node>, NoMemory>
    ensures { IfOk result (λ n. pure_node n ≡ parts_ex reserved level (map pure_mark marks.now) (pure_dom member.now) (pure_node
        view.now)) }
{
    let once = held_once(alloc, level, member, view)?;
    let some = none_empty(alloc, level, view)?;
    let keys = regular_keys(alloc, level, view, marks)?;
    let behind = both(alloc, some, keys)?;
    both(alloc, once, behind)
}
