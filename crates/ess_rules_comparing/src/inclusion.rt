//! Rules of `!=` and of the signs of inclusion.
ghost use Rattle.std.specs.Prelude.{◌≡◌, IfOk, true, option_map};
ghost use Rattle.ess_semantics.specs.declared.words.Op1.{Op1};
ghost use Rattle.ess_semantics.specs.Trees.{ex1, ex2, name_ex};
ghost use Rattle.ess_core_nodes.specs.NodeViews.{pure_node};
ghost use Rattle.ess_node_types.specs.TypedNames.{pure_names};
ghost use Rattle.ess_rules_laws.specs.InclusionRules.{unequal, included_turned, included_strictly, included_members, included_often};
ghost use Rattle.ess_rules_laws.specs.InclusionRules.{every, frequency};

use crate::kinds::{are_msets, are_sets};
use ess_core::Op2;
use ess_core_nodes::Node;
use ess_node_building::binary;
use ess_node_types::NameTypes;
use ess_rows::{Boxed, NoMemory, Text};
use ess_rules_forms::{both, compared, every, frequency, is_in, negated, truth_pair};
use std::alloc::Global;

/// `a != b` becomes `!(a = b)`. Nothing for another root; `NoMemory` where there is no room for it.
#[tactic(auto, using(crate::proofs::PairRules::unequal_of_pair))]
pub fn unequal(alloc: Global, node: &Node) -> Result<Option<Boxed<Node>>, NoMemory>
    ensures { IfOk result (λ o. option_map pure_node o ≡ unequal (pure_node node.now)) }
{
    match truth_pair(node) {
        Some((Op2::Ne, (a, b))) => {
            let equal = compared(alloc, Op2::Eq, a, b)?;
            Ok(Some(negated(alloc, equal)?))
        }
        _ => Ok(None),
    }
}

/// `a supsetEq b` becomes `b subsetEq a`, and `a supset b` becomes `b subset a`. Nothing for another root; `NoMemory` where there
/// is no room for it.
#[tactic(auto, using(crate::proofs::PairRules::turned_of_pair))]
pub fn included_turned(alloc: Global, node: &Node) -> Result<Option<Boxed<Node>>, NoMemory>
    ensures { IfOk result (λ o. option_map pure_node o ≡ included_turned (pure_node node.now)) }
{
    match truth_pair(node) {
        Some((Op2::SupsetEq, (a, b))) => Ok(Some(compared(alloc, Op2::SubsetEq, b, a)?)),
        Some((Op2::Supset, (a, b))) => Ok(Some(compared(alloc, Op2::Subset, b, a)?)),
        _ => Ok(None),
    }
}

/// Of sets, relations and multisets `a subset b` becomes `a subsetEq b /\ !(b subsetEq a)`. Nothing for another root or other
/// types; `NoMemory` where there is no room for it.
#[tactic(auto, using(crate::proofs::PairRules::strictly_of_pair))]
pub fn included_strictly(
    alloc: Global,
    names: &NameTypes,
    one: &Text,
    node: &Node,
) -> Result<Option<Boxed<Node>>, NoMemory>
    ensures { IfOk result (λ o. option_map pure_node o ≡ included_strictly (pure_names names.now) one.now (pure_node node.now)) }
{
    match truth_pair(node) {
        Some((Op2::Subset, (a, b))) => {
            if are_sets(alloc, names, a, b)? || are_msets(alloc, names, a, b)? {
                Ok(Some(proper(alloc, a, b)?))
            } else {
                Ok(None)
            }
        }
        _ => Ok(None),
    }
}

/// `a subsetEq b /\ !(b subsetEq a)`.
fn proper(alloc: Global, a: &Node, b: &Node) -> Result<Boxed<Node>, NoMemory>
    ensures { IfOk result (λ n. pure_node n ≡ ex2 true Op2.And (ex2 true Op2.SubsetEq (pure_node a.now) (pure_node b.now))
        (ex1 true Op1.Not (ex2 true Op2.SubsetEq (pure_node b.now) (pure_node a.now)))) }
{
    let within = compared(alloc, Op2::SubsetEq, a, b)?;
    let around = compared(alloc, Op2::SubsetEq, b, a)?;
    both(alloc, within, negated(alloc, around)?)
}

/// Of sets and relations `a subsetEq b` becomes `and([x in b | x <- a])`, with the name for x. Nothing for another root or other
/// types; `NoMemory` where there is no room for it.
#[tactic(auto, using(crate::proofs::PairRules::members_of_pair))]
pub fn included_members(
    alloc: Global,
    names: &NameTypes,
    one: &Text,
    node: &Node,
) -> Result<Option<Boxed<Node>>, NoMemory>
    ensures { IfOk result (λ o. option_map pure_node o ≡ included_members (pure_names names.now) one.now (pure_node node.now)) }
{
    match truth_pair(node) {
        Some((Op2::SubsetEq, (a, b))) => {
            if are_sets(alloc, names, a, b)? {
                Ok(Some(each_in(alloc, one, a, b)?))
            } else {
                Ok(None)
            }
        }
        _ => Ok(None),
    }
}

/// `and([x in b | x <- a])`, with the name for x.
pub(crate) fn each_in(
    alloc: Global,
    one: &Text,
    a: &Node,
    b: &Node,
) -> Result<Boxed<Node>, NoMemory>
    ensures { IfOk result (λ n. pure_node n ≡ every one.now (pure_node a.now) (ex2 true Op2.Member (name_ex one.now) (pure_node b.now))) }
{
    let source = a.copy(alloc)?;
    let container = b.copy(alloc)?;
    every(alloc, one, source, is_in(alloc, one, container)?)
}

/// `a subsetEq b` becomes `and([freq(a, x) <= freq(b, x) | x <- a])`, with the name for x. Nothing for another root; `NoMemory`
/// where there is no room for it.
#[tactic(auto, using(crate::proofs::PairRules::often_of_pair))]
pub fn included_often(
    alloc: Global,
    one: &Text,
    node: &Node,
) -> Result<Option<Boxed<Node>>, NoMemory>
    ensures { IfOk result (λ o. option_map pure_node o ≡ included_often one.now (pure_node node.now)) }
{
    match truth_pair(node) {
        Some((Op2::SubsetEq, (a, b))) => {
            let source = a.copy(alloc)?;
            let body = frequencies(alloc, Op2::Le, one, a, b)?;
            Ok(Some(every(alloc, one, source, body)?))
        }
        _ => Ok(None),
    }
}

/// How often the member of this name stands in a, compared with how often it stands in b.
pub(crate) fn frequencies(
    alloc: Global,
    op: Op2,
    one: &Text,
    a: &Node,
    b: &Node,
) -> Result<Boxed<Node>, NoMemory>
    ensures { IfOk result (λ n. pure_node n ≡
        ex2 true op (frequency (pure_node a.now) (name_ex one.now)) (frequency (pure_node b.now) (name_ex one.now))) }
{
    let first = frequency(alloc, a, one)?;
    let second = frequency(alloc, b, one)?;
    binary(alloc, true, op, first, second)
}
