//! Rules of `=` between containers: each member of one is in the other.
ghost use Rattle.std.specs.Prelude.{◌≡◌, IfOk, true, false, option_map};
ghost use Rattle.ess_semantics.specs.Trees.{ex2, fun1, name_ex};
ghost use Rattle.ess_core_nodes.specs.NodeViews.{pure_node};
ghost use Rattle.ess_node_types.specs.TypedNames.{pure_names};
ghost use Rattle.ess_rules_laws.specs.InclusionRules.{equal_members, equal_often, equal_pairs, every, frequency};
ghost use Rattle.ess_rules_laws.specs.PartitionRules.{equal_parts, lie_together};

use crate::inclusion::{each_in, frequencies};
use crate::kinds::{are_functions, are_msets, are_partitions, are_sets};
use ess_core::{Fun, Op2};
use ess_core_nodes::Node;
use ess_node_building::word;
use ess_node_types::NameTypes;
use ess_rows::{Boxed, NoMemory, Text};
use ess_rules_forms::{both, every, is_in, lie_together, truth_pair};
use std::alloc::Global;

/// Of sets and relations `a = b` becomes `and([x in b | x <- a]) /\ and([x in a | x <- b])`, with the name for x. Nothing for
/// another root or other types; `NoMemory` where there is no room for it.
#[tactic(auto, using(crate::proofs::PairRules::equal_members_of_pair))]
pub fn equal_members(
    alloc: Global,
    names: &NameTypes,
    one: &Text,
    node: &Node,
) -> Result<Option<Boxed<Node>>, NoMemory>
    ensures { IfOk result (λ o. option_map pure_node o ≡ equal_members (pure_names names.now) one.now (pure_node node.now)) }
{
    match truth_pair(node) {
        Some((Op2::Eq, (a, b))) => {
            if are_sets(alloc, names, a, b)? {
                let first = each_in(alloc, one, a, b)?;
                let second = each_in(alloc, one, b, a)?;
                Ok(Some(both(alloc, first, second)?))
            } else {
                Ok(None)
            }
        }
        _ => Ok(None),
    }
}

/// Of multisets `a = b` becomes `and([freq(a, x) = freq(b, x) | x <- toSet(a)]) /\ and([x in a | x <- b])`, with the name for x.
/// Nothing for another root or other types; `NoMemory` where there is no room for it.
#[tactic(auto, using(crate::proofs::PairRules::equal_often_of_pair))]
pub fn equal_often(
    alloc: Global,
    names: &NameTypes,
    one: &Text,
    node: &Node,
) -> Result<Option<Boxed<Node>>, NoMemory>
    ensures { IfOk result (λ o. option_map pure_node o ≡ equal_often (pure_names names.now) one.now (pure_node node.now)) }
{
    match truth_pair(node) {
        Some((Op2::Eq, (a, b))) => {
            if are_msets(alloc, names, a, b)? {
                let first = as_often(alloc, one, a, b)?;
                let second = each_in(alloc, one, b, a)?;
                Ok(Some(both(alloc, first, second)?))
            } else {
                Ok(None)
            }
        }
        _ => Ok(None),
    }
}

/// `and([freq(a, x) = freq(b, x) | x <- toSet(a)])`, with the name for x.
fn as_often(alloc: Global, one: &Text, a: &Node, b: &Node) -> Result<Boxed<Node>, NoMemory>
    ensures { IfOk result (λ n. pure_node n ≡ every one.now (fun1 false Fun.ToSet (pure_node a.now))
        (ex2 true Op2.Eq (frequency (pure_node a.now) (name_ex one.now)) (frequency (pure_node b.now) (name_ex one.now)))) }
{
    let source = word(alloc, false, Fun::ToSet, a.copy(alloc)?)?;
    let body = frequencies(alloc, Op2::Eq, one, a, b)?;
    every(alloc, one, source, body)
}

/// Of functions `a = b` becomes `and([x in toRelation(b) | x <- a]) /\ and([x in toRelation(a) | x <- b])`, with the name for x.
/// Nothing for another root or other types; `NoMemory` where there is no room for it.
#[tactic(auto, using(crate::proofs::PairRules::equal_pairs_of_pair))]
pub fn equal_pairs(
    alloc: Global,
    names: &NameTypes,
    one: &Text,
    node: &Node,
) -> Result<Option<Boxed<Node>>, NoMemory>
    ensures { IfOk result (λ o. option_map pure_node o ≡ equal_pairs (pure_names names.now) one.now (pure_node node.now)) }
{
    match truth_pair(node) {
        Some((Op2::Eq, (a, b))) => {
            if are_functions(alloc, names, a, b)? {
                let first = each_related(alloc, one, a, b)?;
                let second = each_related(alloc, one, b, a)?;
                Ok(Some(both(alloc, first, second)?))
            } else {
                Ok(None)
            }
        }
        _ => Ok(None),
    }
}

/// `and([x in toRelation(b) | x <- a])`, with the name for x.
fn each_related(alloc: Global, one: &Text, a: &Node, b: &Node) -> Result<Boxed<Node>, NoMemory>
    ensures { IfOk result (λ n. pure_node n ≡
        every one.now (pure_node a.now) (ex2 true Op2.Member (name_ex one.now) (fun1 false Fun.ToRelation (pure_node b.now)))) }
{
    let source = a.copy(alloc)?;
    let pairs = word(alloc, false, Fun::ToRelation, b.copy(alloc)?)?;
    every(alloc, one, source, is_in(alloc, one, pairs)?)
}

/// Of partitions `a = b` becomes `and([together(x, b) | x <- a]) /\ and([together(x, a) | x <- b])`, with the name for x. Nothing
/// for another root or other types; `NoMemory` where there is no room for it.
#[tactic(auto, using(crate::proofs::PairRules::equal_parts_of_pair))]
pub fn equal_parts(
    alloc: Global,
    names: &NameTypes,
    one: &Text,
    node: &Node,
) -> Result<Option<Boxed<Node>>, NoMemory>
    ensures { IfOk result (λ o. option_map pure_node o ≡ equal_parts (pure_names names.now) one.now (pure_node node.now)) }
{
    match truth_pair(node) {
        Some((Op2::Eq, (a, b))) => {
            if are_partitions(alloc, names, a, b)? {
                let first = each_together(alloc, one, a, b)?;
                let second = each_together(alloc, one, b, a)?;
                Ok(Some(both(alloc, first, second)?))
            } else {
                Ok(None)
            }
        }
        _ => Ok(None),
    }
}

/// `and([together(x, b) | x <- a])`, with the name for x.
fn each_together(alloc: Global, one: &Text, a: &Node, b: &Node) -> Result<Boxed<Node>, NoMemory>
    ensures { IfOk result (λ n. pure_node n ≡ every one.now (pure_node a.now) (lie_together (name_ex one.now) (pure_node b.now))) }
{
    let source = a.copy(alloc)?;
    every(alloc, one, source, lie_together(alloc, one, b)?)
}
