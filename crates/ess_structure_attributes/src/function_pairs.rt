//! What the attributes of a function ask of its pairs, as a view has them.
ghost use Rattle.std.specs.Prelude.{◌≡◌, IfOk, map};
ghost use Rattle.ess_core_nodes.specs.NodeViews.{pure_node, pure_nodes, pure_dom, pure_mark};
ghost use Rattle.ess_repr_laws.specs.StructureParts.{keys_ex};
ghost use Rattle.ess_repr_laws.specs.ViewParts.{components_differ_ex, all_taken_ex, pair_key_ex, exact_size_ex, total_size_ex, pairs_ex};
ghost use Rattle.conjure_model_laws.specs.ToldApart.{reserved};
ghost use Rattle.ess_structure_attributes.specs.SizeKeys.{exact_key_ex};

use crate::views::{component_of_name, items};
use ess_core::Key;
use ess_core_nodes::{Mark, Node, NodeDom};
use ess_node_building::truth;
use ess_rows::{Boxed, NoMemory};
use ess_size_terms::has_key;
use ess_structure_terms::{
    all_over, both, bound_name, counted_on, differ_over, equal, over_one, size_key, size_of,
    some_over,
};
use std::alloc::Global;

/// A component, of this domain, of the tuples that the view has differs from tuple to tuple.
pub(crate) fn components_differ(
    alloc: Global,
    level: u64,
    dom: &NodeDom,
    at: u64,
    view: &Node,
) -> Result<Boxed<Node>, NoMemory>
    ensures { IfOk result (λ n. pure_node n ≡ components_differ_ex reserved level (pure_dom dom.now) at (pure_node view.now)) }
{
    let part = component_of_name(alloc, dom, at, level)?;
    let gens = items(alloc, level, view)?;
    differ_over(alloc, part, gens)
}

/// Each value of the domain is the second component of a pair that the view has.
fn all_taken(alloc: Global, level: u64, to: &NodeDom, view: &Node) -> Result<Boxed<Node>, NoMemory>
    ensures { IfOk result (λ n. pure_node n ≡ all_taken_ex reserved level (pure_dom to.now) (pure_node view.now)) }
{
    let behind = counted_on(level)?;
    let part = component_of_name(alloc, to, 2, behind)?;
    let value = bound_name(alloc, level)?;
    let same = equal(alloc, part, value)?;
    let gens = items(alloc, behind, view)?;
    let taken = some_over(alloc, same, gens)?;
    let gens = over_one(alloc, level, to)?;
    all_over(alloc, taken, gens)
}

/// What an attribute without a number asks of the function to this domain whose pairs the view has.
pub(crate) fn pair_key(
    alloc: Global,
    level: u64,
    to: &NodeDom,
    view: &Node,
    key: Key,
) -> Result<Boxed<Node>, NoMemory>
    ensures { IfOk result (λ n. pure_node n ≡ pair_key_ex reserved level (pure_dom to.now) (pure_node view.now) key) }
{
    match key {
        Key::Injective => components_differ(alloc, level, to, 2, view),
        Key::Surjective => all_taken(alloc, level, to, view),
        Key::Bijective => {
            let differ = components_differ(alloc, level, to, 2, view)?;
            let taken = all_taken(alloc, level, to, view)?;
            both(alloc, differ, taken)
        }
        _ => truth(alloc, true),
    }
}

/// What all attributes without a number ask of it.
fn pair_keys(
    alloc: Global,
    level: u64,
    to: &NodeDom,
    view: &Node,
    marks: &[Mark],
) -> Result<Boxed<Node>, NoMemory>
    ensures { IfOk result (λ n. pure_node n ≡ keys_ex (pair_key_ex reserved level (pure_dom to.now) (pure_node view.now)) (map
        pure_mark marks.now)) }
{
    match marks.split_first() {
        None => truth(alloc, true),
        Some((Mark::Flag(key), rest)) => {
            let here = pair_key(alloc, level, to, view, *key)?;
            let others = pair_keys(alloc, level, to, view, rest)?;
            both(alloc, here, others)
        }
        Some((Mark::Valued(_), rest)) => pair_keys(alloc, level, to, view, rest),
    }
}

/// What `size` asks of a set with so many members, as it stands among the attributes.
#[tactic(auto, using(crate::proofs::ExactSizes::exact_first))]
fn exact_size(
    alloc: Global,
    marks: &[Mark],
    numbers: &[Node],
    members: &Node,
) -> Result<Boxed<Node>, NoMemory>
    ensures { IfOk result (λ n. pure_node n ≡ exact_size_ex (map pure_mark marks.now) (pure_nodes numbers.now) (pure_node members.now)) }
{
    match marks.split_first() {
        None => truth(alloc, true),
        Some((Mark::Flag(_), rest)) => exact_size(alloc, rest, numbers, members),
        Some((Mark::Valued(key), rest)) => match numbers.split_first() {
            None => truth(alloc, true),
            Some((bound, more)) => {
                let here = exact_key(alloc, *key, bound, members)?;
                let others = exact_size(alloc, rest, more, members)?;
                both(alloc, here, others)
            }
        },
    }
}

/// What `size` asks where the attribute is that one; else nothing.
fn exact_key(alloc: Global, key: Key, bound: &Node, members: &Node) -> Result<Boxed<Node>, NoMemory>
    ensures { IfOk result (λ n. pure_node n ≡ exact_key_ex key (pure_node bound.now) (pure_node members.now)) }
{
    match key {
        Key::Size => size_key(alloc, Key::Size, bound, members),
        _ => truth(alloc, true),
    }
}

/// What `size` beside `total` asks of a function whose pairs the view has.
fn total_size(
    alloc: Global,
    marks: &[Mark],
    numbers: &[Node],
    view: &Node,
) -> Result<Boxed<Node>, NoMemory>
    ensures { IfOk result (λ n. pure_node n ≡ total_size_ex (map pure_mark marks.now) (pure_nodes numbers.now) (pure_node view.now)) }
{
    if has_key(marks, Key::Total) {
        let pairs = size_of(alloc, view.copy(alloc)?)?;
        return exact_size(alloc, marks, numbers, pairs.get());
    }
    truth(alloc, true)
}

/// The pairs that the view has are those of a function between these domains with these attributes. `NoMemory` where there is no room
/// for it.
pub fn pairs(
    alloc: Global,
    level: u64,
    marks: &[Mark],
    numbers: &[Node],
    from: &NodeDom,
    to: &NodeDom,
    view: &Node,
) -> Result<Boxed<Node>, NoMemory>
    ensures { IfOk result (λ n. pure_node n ≡ pairs_ex reserved level (map pure_mark marks.now) (pure_nodes numbers.now)
        (pure_dom from.now) (pure_dom to.now) (pure_node view.now)) }
{
    let differ = components_differ(alloc, level, from, 1, view)?;
    let size = total_size(alloc, marks, numbers, view)?;
    let keys = pair_keys(alloc, level, to, view, marks)?;
    let behind = both(alloc, size, keys)?;
    both(alloc, differ, behind)
}
