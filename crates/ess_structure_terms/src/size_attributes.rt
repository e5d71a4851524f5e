//! What the attributes that speak of sizes ask, and how many cells of a table are true.
ghost use Rattle.std.specs.Prelude.{◌≡◌, true, false, pos, IfOk, map};
ghost use Rattle.ess_semantics.specs.Trees.{number_ex, cell_ex, ex2};
ghost use Rattle.ess_semantics.specs.declared.words.Op2.TheVariants.{Eq};
ghost use Rattle.ess_core_nodes.specs.NodeViews.{pure_node, pure_nodes, pure_dom, pure_mark};
ghost use Rattle.ess_repr_laws.specs.StructureParts.{or_ex, row_index, each_ex, key_ex, size_ex, true_count_ex, place_count_ex, number_sum_ex, times_of_ex, times_ex, counts_ex};
ghost use Rattle.conjure_model_laws.specs.ToldApart.{reserved};

use crate::indices::{each, row_gens};
use crate::shapes::cell_over;
use crate::terms::{at_most, both, count_over, either, equal, sum_over};
use ess_core::Key;
use ess_core_nodes::{Mark, Node, NodeDom};
use ess_node_building::{number, truth};
use ess_rows::{Boxed, NoMemory, Text};
use std::alloc::Global;

/// What an attribute with a number asks of a set with so many members.
pub fn size_key(
    alloc: Global,
    key: Key,
    bound: &Node,
    members: &Node,
) -> Result<Boxed<Node>, NoMemory>
    ensures { IfOk result (λ n. pure_node n ≡ key_ex key (pure_node bound.now) (pure_node members.now)) }
{
    match key {
        Key::Size => {
            let least = at_most(alloc, bound.copy(alloc)?, members.copy(alloc)?)?;
            let greatest = at_most(alloc, members.copy(alloc)?, bound.copy(alloc)?)?;
            both(alloc, least, greatest)
        }
        Key::MinSize => at_most(alloc, bound.copy(alloc)?, members.copy(alloc)?),
        Key::MaxSize => at_most(alloc, members.copy(alloc)?, bound.copy(alloc)?),
        _ => truth(alloc, true),
    }
}

/// What all attributes with a number ask of a set with so many members.
pub fn sizes(
    alloc: Global,
    marks: &[Mark],
    numbers: &[Node],
    members: &Node,
) -> Result<Boxed<Node>, NoMemory>
    ensures { IfOk result (λ n. pure_node n ≡ size_ex (map pure_mark marks.now) (pure_nodes numbers.now) (pure_node members.now)) }
{
    match marks.split_first() {
        None => truth(alloc, true),
        Some((Mark::Flag(_), rest)) => sizes(alloc, rest, numbers, members),
        Some((Mark::Valued(key), rest)) => match numbers.split_first() {
            None => truth(alloc, true),
            Some((bound, more)) => {
                let here = size_key(alloc, *key, bound, members)?;
                let others = sizes(alloc, rest, more, members)?;
                both(alloc, here, others)
            }
        },
    }
}

/// How many cells of a table are true.
pub fn true_count(
    alloc: Global,
    level: u64,
    axes: &[NodeDom],
    name: &Text,
    at: &[Node],
) -> Result<Boxed<Node>, NoMemory>
    ensures { IfOk result (λ n. pure_node n ≡ true_count_ex reserved level (map pure_dom axes.now) name.now (pure_nodes at.now)) }
{
    let cell = cell_over(alloc, true, level, axes, name, at)?;
    let gens = row_gens(alloc, level, axes)?;
    count_over(alloc, cell, gens)
}

/// How many places the axes have.
pub fn place_count(alloc: Global, level: u64, axes: &[NodeDom]) -> Result<Boxed<Node>, NoMemory>
    ensures { IfOk result (λ n. pure_node n ≡ place_count_ex reserved level (map pure_dom axes.now)) }
{
    let one = number(alloc, 1)?;
    let gens = row_gens(alloc, level, axes)?;
    sum_over(alloc, one, gens)
}

/// The sum of the numbers of a table.
fn number_sum(
    alloc: Global,
    level: u64,
    axes: &[NodeDom],
    name: &Text,
    at: &[Node],
) -> Result<Boxed<Node>, NoMemory>
    ensures { IfOk result (λ n. pure_node n ≡ number_sum_ex reserved level (map pure_dom axes.now) name.now (pure_nodes at.now)) }
{
    let cell = cell_over(alloc, false, level, axes, name, at)?;
    let gens = row_gens(alloc, level, axes)?;
    sum_over(alloc, cell, gens)
}

/// What an attribute with a number asks of each number of times that isn't 0.
fn times_key(
    alloc: Global,
    level: u64,
    key: Key,
    bound: &Node,
    axes: &[NodeDom],
    name: &Text,
    at: &[Node],
) -> Result<Boxed<Node>, NoMemory>
    ensures { IfOk result (λ n. pure_node n ≡ times_of_ex reserved level key (pure_node bound.now) (map pure_dom axes.now) name.now
        (pure_nodes at.now)) }
{
    match key {
        Key::MinOccur => {
            let times = cell_over(alloc, false, level, axes, name, at)?;
            let test = at_most(alloc, bound.copy(alloc)?, times)?;
            each_time(alloc, level, axes, name, at, test)
        }
        Key::MaxOccur => {
            let times = cell_over(alloc, false, level, axes, name, at)?;
            let test = at_most(alloc, times, bound.copy(alloc)?)?;
            each_time(alloc, level, axes, name, at, test)
        }
        _ => truth(alloc, true),
    }
}

/// At each place the cell is 0 or the test holds.
fn each_time(
    alloc: Global,
    level: u64,
    axes: &[NodeDom],
    name: &Text,
    at: &[Node],
    test: Boxed<Node>,
) -> Result<Boxed<Node>, NoMemory>
    ensures { IfOk result (λ n. pure_node n ≡ each_ex reserved level (map pure_dom axes.now)
        (or_ex (ex2 true Eq (number_ex (pos 0)) (cell_ex false name.now (row_index reserved level (map pure_dom axes.now) (pure_nodes
        at.now))))
        (pure_node test))) }
{
    let zero = number(alloc, 0)?;
    let times = cell_over(alloc, false, level, axes, name, at)?;
    let none = equal(alloc, zero, times)?;
    let test = either(alloc, none, test)?;
    each(alloc, level, axes, test)
}

/// What all attributes with a number ask of each number of times.
fn times(
    alloc: Global,
    level: u64,
    marks: &[Mark],
    numbers: &[Node],
    axes: &[NodeDom],
    name: &Text,
    at: &[Node],
) -> Result<Boxed<Node>, NoMemory>
    ensures { IfOk result (λ n. pure_node n ≡ times_ex reserved level (map pure_mark marks.now) (pure_nodes numbers.now)
        (map pure_dom axes.now) name.now (pure_nodes at.now)) }
{
    match marks.split_first() {
        None => truth(alloc, true),
        Some((Mark::Flag(_), rest)) => times(alloc, level, rest, numbers, axes, name, at),
        Some((Mark::Valued(key), rest)) => match numbers.split_first() {
            None => truth(alloc, true),
            Some((bound, more)) => {
                let here = times_key(alloc, level, *key, bound, axes, name, at)?;
                let others = times(alloc, level, rest, more, axes, name, at)?;
                both(alloc, here, others)
            }
        },
    }
}

/// What the attributes of a multiset ask of a table that says how often each member occurs. `NoMemory` where there is no room for it.
pub fn counts(
    alloc: Global,
    level: u64,
    marks: &[Mark],
    numbers: &[Node],
    axes: &[NodeDom],
    name: &Text,
    at: &[Node],
) -> Result<Boxed<Node>, NoMemory>
    ensures { IfOk result (λ n. pure_node n ≡ counts_ex reserved level (map pure_mark marks.now) (pure_nodes numbers.now)
        (map pure_dom axes.now) name.now (pure_nodes at.now)) }
{
    let members = number_sum(alloc, level, axes, name, at)?;
    let sizes = sizes(alloc, marks, numbers, members.get())?;
    let times = times(alloc, level, marks, numbers, axes, name, at)?;
    both(alloc, sizes, times)
}
