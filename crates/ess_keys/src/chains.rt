//! Long conjunctions as lists. A flat constraint keeps its form.
ghost use Rattle.std.specs.Prelude.{◌≡◌, ◌++◌, ◌∷◌, [], true, false, IfOk, OnOk, IfSome, map, nat_le, option_map};
ghost use Rattle.ess_semantics.specs.Trees.{binary, more_exs};
ghost use Rattle.ess_semantics.specs.Models.{is_flat_op};
ghost use Rattle.ess_core_nodes.specs.NodeViews.{pure_node, pure_nodes, pure_op};
ghost use Rattle.ess_keys_laws.specs.Chains.{is_of_flat_form, are_of_flat_form, links, chain, all_under_and, has_many, conjuncts_of, conjunction_fold};
ghost use Rattle.ess_keys.specs.Steps.{trees_before, list_items, items_under_and, sides};

use crate::finding::is_no_index;
use crate::folding::one_operand;
use ess_core::{Fun, Op2};
use ess_core_nodes::{Node, Op, copy_nodes};
use ess_guard_forms::pair_in;
use ess_node_building::{literal, word};
use ess_rows::{Boxed, NoMemory, Row};
use std::alloc::Global;

/// Whether it is an operator of flat constraints.
fn is_flat_op(op: &Op) -> bool
    ensures { result ≡ is_flat_op (pure_op op.now) }
{
    match op {
        Op::Unary(_) => true,
        Op::Binary(op) => is_flat_binary(*op),
        Op::Word(Fun::ToInt) => true,
        _ => false,
    }
}

/// The same of an operator on two operands.
fn is_flat_binary(op: Op2) -> bool
    ensures { result ≡ is_flat_op (binary op) }
{
    match op {
        Op2::Minus | Op2::Plus | Op2::Times => true,
        Op2::Eq | Op2::Ne | Op2::Lt | Op2::Le | Op2::Gt | Op2::Ge => true,
        Op2::And | Op2::Or | Op2::Implies | Op2::Iff => true,
        _ => false,
    }
}

/// Whether the tree has the form of a flat constraint over cells.
#[cycle(flat)]
#[tactic(auto, using(ess_core_nodes::proofs::NodeEquations::pure_seen_is))]
fn is_of_flat_form(node: &Node) -> bool
    ensures { result ≡ is_of_flat_form (pure_node node.now) }
{
    match node {
        Node::Number(_) => true,
        Node::Truth(_) => true,
        Node::Cell(_, _, at) => is_no_index(at.as_slice()),
        Node::Op(_, op, operands) => is_flat_op(op) && are_of_flat_form(operands.as_slice()),
        _ => false,
    }
}

/// The same of operands.
#[cycle(flat)]
fn are_of_flat_form(nodes: &[Node]) -> bool
    ensures { result ≡ are_of_flat_form (pure_nodes nodes.now) }
{
    for node in nodes {
        if !is_of_flat_form(node) {
            return false;
        }
    }
    true
}

/// Whether a chain to the right has at least this many `/\`.
#[cycle(links)]
#[tactic(auto, using(ess_core_nodes::proofs::NodeEquations::pure_seen_is))]
fn has_links(node: &Node, count: usize) -> bool
    ensures { result ≡ nat_le count (links (pure_node node.now)) }
{
    if count == 0 {
        return true;
    }
    match node {
        Node::Op(true, Op::Binary(Op2::And), operands) => match pair_in(operands.as_slice()) {
            Some((_, rest)) => has_links(rest, count - 1),
            None => false,
        },
        _ => false,
    }
}

/// The items of a list.
#[tactic(auto, using(ess_core_nodes::proofs::NodeEquations::pure_seen_is))]
fn list_items(node: &Node) -> Option<&[Node]>
    ensures part { option_map (λ s. pure_nodes s.now) result ≡ list_items (pure_node node.now) }
    ensures whole { IfSome result (λ s. node.now ≡ Node.Op false Op.Matrix s.now) }
{
    match node {
        Node::Op(false, Op::Matrix, items) => Some(items.as_slice()),
        _ => None,
    }
}

/// The items of a list under `and`.
#[tactic(auto, using(ess_core_nodes::proofs::NodeEquations::pure_seen_is))]
pub(crate) fn items_under_and(node: &Node) -> Option<&[Node]>
    ensures part { option_map (λ s. pure_nodes s.now) result ≡ items_under_and (pure_node node.now) }
    ensures whole { IfSome result (λ s. node.now ≡ Node.Op true (Op.Word Fun.And) (Node.Op false Op.Matrix s.now ∷ [])) }
{
    match node {
        Node::Op(true, Op::Word(Fun::And), lists) => match one_operand(lists.as_slice()) {
            Some(list) => match list_items(list) {
                Some(items) => Some(items),
                None => None,
            },
            None => None,
        },
        _ => None,
    }
}

/// Whether the tree has many conjuncts.
#[tactic(auto, using(crate::proofs::Conjunctions::many_links))]
fn has_many(node: &Node) -> bool
    ensures { result ≡ has_many (pure_node node.now) }
{
    match items_under_and(node) {
        Some(items) => 16 <= items.len(),
        None => has_links(node, 14),
    }
}

/// A copy of a tree comes behind others.
pub(crate) fn push_copy(alloc: Global, node: &Node, items: &mut Row<Node>) -> Result<(), NoMemory>
    ensures { OnOk result (map pure_node items.new ≡ map pure_node items.old ++ pure_node node.now ∷ []) }
{
    let copy = node.copy(alloc)?;
    items.push(copy.into_inner())
}

/// Both sides of a conjunction.
#[tactic(auto, using(ess_core_nodes::proofs::NodeEquations::pure_seen_is))]
pub(crate) fn sides(node: &Node) -> Option<(&Node, &Node)>
    ensures part { option_map (λ p. (pure_node p.0.now, pure_node p.1.now)) result ≡ sides (pure_node node.now) }
    ensures whole { IfSome result (λ p. node.now ≡ Node.Op true (Op.Binary Op2.And) (p.0.now ∷ p.1.now ∷ [])) }
{
    match node {
        Node::Op(true, Op::Binary(Op2::And), operands) => match pair_in(operands.as_slice()) {
            Some((first, second)) => Some((first, second)),
            None => None,
        },
        _ => None,
    }
}

/// The conjuncts of a chain come behind other trees.
#[cycle(put_chain)]
fn put_chain(alloc: Global, node: &Node, items: &mut Row<Node>) -> Result<(), NoMemory>
    ensures { OnOk result (pure_nodes items.new ≡ trees_before (map pure_node items.old) (chain (pure_node node.now))) }
{
    match sides(node) {
        Some((first, rest)) => {
            push_copy(alloc, first, items)?;
            put_chain(alloc, rest, items)
        }
        None => push_copy(alloc, node, items),
    }
}

/// Copies of trees come behind others.
fn put_copies(alloc: Global, nodes: &[Node], items: &mut Row<Node>) -> Result<(), NoMemory>
    ensures { OnOk result (map pure_node items.new ≡ map pure_node items.old ++ map pure_node nodes.now) }
{
    let mut copies = copy_nodes(alloc, nodes)?;
    items.append(&mut copies)
}

/// The conjuncts of a tree come behind others.
fn put_conjuncts(alloc: Global, node: &Node, items: &mut Row<Node>) -> Result<(), NoMemory>
    ensures { OnOk result (pure_nodes items.new ≡ trees_before (map pure_node items.old) (conjuncts_of (pure_node node.now))) }
{
    match items_under_and(node) {
        Some(list) => put_copies(alloc, list, items),
        None => put_chain(alloc, node, items),
    }
}

/// Trees as a list under `and`.
pub(crate) fn all_under_and(alloc: Global, items: Row<Node>) -> Result<Boxed<Node>, NoMemory>
    ensures { IfOk result (λ n. pure_node n ≡ all_under_and (pure_nodes items)) }
{
    let list = literal(alloc, Op::Matrix, items)?;
    word(alloc, true, Fun::And, list)
}

/// A conjunct and those of another tree as a list under `and`.
#[tactic(auto, using(crate::proofs::Conjunctions::one_before))]
fn all_together(alloc: Global, first: &Node, second: &Node) -> Result<Boxed<Node>, NoMemory>
    ensures { IfOk result (λ n. pure_node n ≡ all_under_and (more_exs (pure_node first.now) (conjuncts_of (pure_node second.now)))) }
{
    let mut items = Row::new(alloc);
    push_copy(alloc, first, &mut items)?;
    put_conjuncts(alloc, second, &mut items)?;
    all_under_and(alloc, items)
}

/// What is left of a conjunction: a list of all conjuncts, where the second tree has many and it isn't of flat form.
pub(crate) fn conjunction_fold(
    alloc: Global,
    first: &Node,
    second: &Node,
) -> Result<Option<Boxed<Node>>, NoMemory>
    ensures { IfOk result (λ o. option_map pure_node o ≡ conjunction_fold (pure_node first.now) (pure_node second.now)) }
{
    if has_many(second) && !(is_of_flat_form(first) && is_of_flat_form(second)) {
        Ok(Some(all_together(alloc, first, second)?))
    } else {
        Ok(None)
    }
}
