//! Sizes of views, as terms over the numbers of their own domains.
ghost use Rattle.std.specs.Prelude.{◌≡◌, option_map, IfOk};
ghost use Rattle.ess_core_nodes.specs.NodeViews.{pure_node, pure_seen};
ghost use Rattle.ess_kind_rules_laws.specs.ViewListings.{dom_seen, slots_seen, dummy_of_members, occurrences_of, partitioned};
ghost use Rattle.ess_kind_rules_laws.specs.ViewListings.{second_operand, partitioned_second, slots_of_operand, members_of_first};

use ess_core::ReprKind;
use ess_core_nodes::{Node, NodeDom, Seen};
use ess_node_building::number;
use ess_rows::{Boxed, NoMemory};
use ess_size_terms::{bound, dummy, occurrences, slots};
use std::alloc::Global;

/// How many slots a view has, 0 for another tree.
#[tactic(auto, using(ess_core_nodes::proofs::NodeEquations::pure_seen_is))]
pub(crate) fn slots_seen(alloc: Global, node: &Node) -> Result<Boxed<Node>, NoMemory>
    ensures { IfOk result (λ n. pure_node n ≡ slots_seen (pure_node node.now)) }
{
    match node {
        Node::Seen(seen) => slots(alloc, seen.get().dom.get()),
        _ => number(alloc, 0),
    }
}

/// The dummy of the members of a view of a set, 0 for another tree.
#[tactic(auto, using(ess_core_nodes::proofs::NodeEquations::pure_seen_is))]
pub(crate) fn dummy_seen(alloc: Global, node: &Node) -> Result<Boxed<Node>, NoMemory>
    ensures { IfOk result (λ n. pure_node n ≡ dummy_of_members (dom_seen (pure_node node.now))) }
{
    match node {
        Node::Seen(seen) => match seen.get().dom.get() {
            NodeDom::Set(_, _, member) => dummy(alloc, member.get()),
            _ => number(alloc, 0),
        },
        _ => number(alloc, 0),
    }
}

/// How often a member of a view of a multiset may be there, 0 for another tree.
#[tactic(auto, using(ess_core_nodes::proofs::NodeEquations::pure_seen_is))]
pub(crate) fn occurrences_seen(alloc: Global, node: &Node) -> Result<Boxed<Node>, NoMemory>
    ensures { IfOk result (λ n. pure_node n ≡ occurrences_of (dom_seen (pure_node node.now))) }
{
    match node {
        Node::Seen(seen) => match seen.get().dom.get() {
            NodeDom::MSet(marks, numbers, _) => {
                occurrences(alloc, marks.as_slice(), numbers.as_slice())
            }
            _ => number(alloc, 0),
        },
        _ => number(alloc, 0),
    }
}

/// How many members a view of a partition has, 0 for another tree.
#[tactic(auto, using(ess_core_nodes::proofs::NodeEquations::pure_seen_is))]
pub(crate) fn partitioned_seen(alloc: Global, node: &Node) -> Result<Boxed<Node>, NoMemory>
    ensures { IfOk result (λ n. pure_node n ≡ partitioned (dom_seen (pure_node node.now))) }
{
    match node {
        Node::Seen(seen) => match seen.get().dom.get() {
            NodeDom::Partition(_, _, member) => bound(alloc, member.get()),
            _ => number(alloc, 0),
        },
        _ => number(alloc, 0),
    }
}

/// How many members the view of a partition has that is the second operand, 0 where it is another tree. `NoMemory` where there is no
/// room for it.
pub fn partitioned_second(alloc: Global, node: &Node) -> Result<Boxed<Node>, NoMemory>
    ensures { IfOk result (λ n. pure_node n ≡ partitioned_second (pure_node node.now)) }
{
    partitioned_seen(alloc, second_operand(node))
}

/// The second operand, or the tree itself.
#[tactic(auto, using(ess_core_nodes::proofs::NodeEquations::pure_seen_is))]
fn second_operand(node: &Node) -> &Node
    ensures { pure_node result.now ≡ second_operand (pure_node node.now) }
{
    match node {
        Node::Op(_, _, operands) => match operands.as_slice().split_first() {
            None => node,
            Some((_, rest)) => match rest.split_first() {
                None => node,
                Some((second, _)) => second,
            },
        },
        _ => node,
    }
}

/// How many slots the view has that is the first operand, 0 where it is another tree. `NoMemory` where there is no room for it.
#[tactic(auto, using(ess_core_nodes::proofs::NodeEquations::pure_seen_is))]
pub fn slots_of_operand(alloc: Global, node: &Node) -> Result<Boxed<Node>, NoMemory>
    ensures { IfOk result (λ n. pure_node n ≡ slots_of_operand (pure_node node.now)) }
{
    match node {
        Node::Op(_, _, operands) => match operands.as_slice().split_first() {
            None => number(alloc, 0),
            Some((first, _)) => slots_seen(alloc, first),
        },
        _ => slots_seen(alloc, node),
    }
}

/// Of a view of a total function the number of members of its first domain. Nothing for another tree; `NoMemory` where there is no
/// room for it.
pub fn members_of_first(alloc: Global, node: &Node) -> Result<Option<Boxed<Node>>, NoMemory>
    ensures { IfOk result (λ o. option_map pure_node o ≡ members_of_first (pure_node node.now)) }
{
    match node {
        Node::Seen(seen) => members_first(alloc, seen.get()),
        _ => Ok(None),
    }
}

/// The same of a view.
#[tactic(auto, using(ess_core_nodes::proofs::NodeEquations::pure_seen_is, ess_core::proofs::RepresentationEquations::pure_repr_is))]
fn members_first(alloc: Global, seen: &Seen) -> Result<Option<Boxed<Node>>, NoMemory>
    ensures { IfOk result (λ o. option_map pure_node o ≡ members_of_first (pure_seen seen.now)) }
{
    match seen.repr.kind {
        ReprKind::Function1D | ReprKind::FunctionND => match seen.dom.get() {
            NodeDom::Function(_, _, first, _) => Ok(Some(bound(alloc, first.get())?)),
            _ => Ok(None),
        },
        _ => Ok(None),
    }
}
