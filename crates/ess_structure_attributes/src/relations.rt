//! Relations: which tuples occur, and what the attributes ask of the pairs that a view has.
ghost use Rattle.std.specs.Prelude.{◌≡◌, IfOk, map};
ghost use Rattle.ess_semantics.specs.declared.words.Key.TheVariants.{Reflexive, AntiSymmetric};
ghost use Rattle.ess_core_nodes.specs.NodeViews.{pure_node, pure_nodes, pure_dom, pure_doms, pure_mark};
ghost use Rattle.ess_repr_laws.specs.StructureParts.{keys_ex};
ghost use Rattle.ess_repr_laws.specs.RelationParts.{has_pair_ex, first_ex, second_ex, turned_ex, parts_same_ex, linked_ex, pair_relation_key_ex, relation_key_ex, relation_ex};
ghost use Rattle.conjure_model_laws.specs.ToldApart.{reserved};

use crate::views::{component_of_name, every_item};
use ess_core::{Key, Op2};
use ess_core_nodes::{Mark, Node, NodeDom};
use ess_node_building::{binary, pair, truth};
use ess_rows::{Boxed, NoMemory, Text};
use ess_structure_terms::{
    all_over, both, bound_name, counted_on, either, equal, implies, negated, over_one, sizes,
    true_count,
};
use std::alloc::Global;

/// The relation that the view is has the pair.
fn has_pair(
    alloc: Global,
    view: &Node,
    first: Boxed<Node>,
    second: Boxed<Node>,
) -> Result<Boxed<Node>, NoMemory>
    ensures { IfOk result (λ n. pure_node n ≡ has_pair_ex (pure_node view.now) (pure_node first) (pure_node second)) }
{
    let pair = pair(alloc, first, second)?;
    let view = view.copy(alloc)?;
    binary(alloc, true, Op2::Member, pair, view)
}

/// The first part of the pair that the name of this number has.
fn first(alloc: Global, level: u64, from: &NodeDom) -> Result<Boxed<Node>, NoMemory>
    ensures { IfOk result (λ n. pure_node n ≡ first_ex reserved level (pure_dom from.now)) }
{
    component_of_name(alloc, from, 1, level)
}

/// The second part.
fn second(alloc: Global, level: u64, to: &NodeDom) -> Result<Boxed<Node>, NoMemory>
    ensures { IfOk result (λ n. pure_node n ≡ second_ex reserved level (pure_dom to.now)) }
{
    component_of_name(alloc, to, 2, level)
}

/// The relation has the pair turned round.
fn turned(
    alloc: Global,
    level: u64,
    from: &NodeDom,
    to: &NodeDom,
    view: &Node,
) -> Result<Boxed<Node>, NoMemory>
    ensures { IfOk result (λ n. pure_node n ≡ turned_ex reserved level (pure_dom from.now) (pure_dom to.now) (pure_node view.now)) }
{
    let end = second(alloc, level, to)?;
    let start = first(alloc, level, from)?;
    has_pair(alloc, view, end, start)
}

/// Both parts of the pair are the same.
fn parts_same(
    alloc: Global,
    level: u64,
    from: &NodeDom,
    to: &NodeDom,
) -> Result<Boxed<Node>, NoMemory>
    ensures { IfOk result (λ n. pure_node n ≡ parts_same_ex reserved level (pure_dom from.now) (pure_dom to.now)) }
{
    let start = first(alloc, level, from)?;
    let end = second(alloc, level, to)?;
    equal(alloc, start, end)
}

/// Where the pair ends where the pair behind it begins, the relation leads from the one to the other end.
fn linked(
    alloc: Global,
    level: u64,
    from: &NodeDom,
    to: &NodeDom,
    view: &Node,
) -> Result<Boxed<Node>, NoMemory>
    ensures { IfOk result (λ n. pure_node n ≡ linked_ex reserved level (pure_dom from.now) (pure_dom to.now) (pure_node view.now)) }
{
    let behind = counted_on(level)?;
    let end = second(alloc, level, to)?;
    let start = first(alloc, behind, from)?;
    let meet = equal(alloc, end, start)?;
    let start = first(alloc, level, from)?;
    let end = second(alloc, behind, to)?;
    let led = has_pair(alloc, view, start, end)?;
    implies(alloc, meet, led)
}

/// Each value is in a pair with itself.
fn reflexive(
    alloc: Global,
    level: u64,
    from: &NodeDom,
    view: &Node,
) -> Result<Boxed<Node>, NoMemory>
    ensures { IfOk result (λ n. pure_node n ≡ pair_relation_key_ex reserved level (pure_dom from.now) (pure_dom from.now) (pure_node
        view.now) Reflexive) }
{
    let value = bound_name(alloc, level)?;
    let again = bound_name(alloc, level)?;
    let held = has_pair(alloc, view, value, again)?;
    let gens = over_one(alloc, level, from)?;
    all_over(alloc, held, gens)
}

/// No two pairs are each other turned round, but those of a value with itself.
fn anti_symmetric(
    alloc: Global,
    level: u64,
    from: &NodeDom,
    to: &NodeDom,
    view: &Node,
) -> Result<Boxed<Node>, NoMemory>
    ensures { IfOk result (λ n. pure_node n ≡ pair_relation_key_ex reserved level (pure_dom from.now) (pure_dom to.now) (pure_node
        view.now) AntiSymmetric) }
{
    let turned = turned(alloc, level, from, to, view)?;
    let other = negated(alloc, turned)?;
    let same = parts_same(alloc, level, from, to)?;
    let test = either(alloc, other, same)?;
    every_item(alloc, level, view, test)
}

/// What an attribute without a number asks of the relation between these domains whose pairs the view has.
fn pair_relation_key(
    alloc: Global,
    level: u64,
    from: &NodeDom,
    to: &NodeDom,
    view: &Node,
    key: Key,
) -> Result<Boxed<Node>, NoMemory>
    ensures { IfOk result (λ n. pure_node n ≡ pair_relation_key_ex reserved level (pure_dom from.now) (pure_dom to.now) (pure_node
        view.now) key) }
{
    match key {
        Key::Reflexive => reflexive(alloc, level, from, view),
        Key::Irreflexive => {
            let same = parts_same(alloc, level, from, to)?;
            let test = negated(alloc, same)?;
            every_item(alloc, level, view, test)
        }
        Key::Symmetric => {
            let test = turned(alloc, level, from, to, view)?;
            every_item(alloc, level, view, test)
        }
        Key::AntiSymmetric => anti_symmetric(alloc, level, from, to, view),
        Key::ASymmetric => {
            let turned = turned(alloc, level, from, to, view)?;
            let test = negated(alloc, turned)?;
            every_item(alloc, level, view, test)
        }
        Key::Transitive => {
            let test = linked(alloc, level, from, to, view)?;
            let behind = every_item(alloc, counted_on(level)?, view, test)?;
            every_item(alloc, level, view, behind)
        }
        _ => truth(alloc, true),
    }
}

/// The same for a relation over these domains: one of more or fewer than two has no such attribute.
fn relation_key(
    alloc: Global,
    level: u64,
    doms: &[NodeDom],
    view: &Node,
    key: Key,
) -> Result<Boxed<Node>, NoMemory>
    ensures { IfOk result (λ n. pure_node n ≡ relation_key_ex reserved level (pure_doms doms.now) (pure_node view.now) key) }
{
    match doms.split_first() {
        None => truth(alloc, false),
        Some((from, rest)) => match rest.split_first() {
            None => truth(alloc, false),
            Some((to, more)) => match more.split_first() {
                None => pair_relation_key(alloc, level, from, to, view, key),
                Some(_) => truth(alloc, false),
            },
        },
    }
}

/// What all attributes without a number ask of the relation over these domains whose tuples the view has. `NoMemory` where there is no
/// room for it.
pub fn relation_keys(
    alloc: Global,
    level: u64,
    doms: &[NodeDom],
    view: &Node,
    marks: &[Mark],
) -> Result<Boxed<Node>, NoMemory>
    ensures { IfOk result (λ n. pure_node n ≡ keys_ex (relation_key_ex reserved level (pure_doms doms.now) (pure_node view.now)) (map
        pure_mark marks.now)) }
{
    match marks.split_first() {
        None => truth(alloc, true),
        Some((Mark::Flag(key), rest)) => {
            let here = relation_key(alloc, level, doms, view, *key)?;
            let others = relation_keys(alloc, level, doms, view, rest)?;
            both(alloc, here, others)
        }
        Some((Mark::Valued(_), rest)) => relation_keys(alloc, level, doms, view, rest),
    }
}

/// Which tuples occur. The view has the attributes without a number. `NoMemory` where there is no room for it.
pub fn relation(
    alloc: Global,
    level: u64,
    marks: &[Mark],
    numbers: &[Node],
    doms: &[NodeDom],
    name: &Text,
    at: &[Node],
    view: &Node,
) -> Result<Boxed<Node>, NoMemory>
    ensures { IfOk result (λ n. pure_node n ≡ relation_ex reserved level (map pure_mark marks.now) (pure_nodes numbers.now) (pure_doms
        doms.now)
        (map pure_dom doms.now) name.now (pure_nodes at.now) (pure_node view.now)) }
{
    let tuples = true_count(alloc, level, doms, name, at)?;
    let sizes = sizes(alloc, marks, numbers, tuples.get())?;
    let keys = relation_keys(alloc, level, doms, view, marks)?;
    both(alloc, sizes, keys)
}
