//! The key that conditions behind a generator say its name equals.
ghost use Rattle.std.specs.Prelude.{◌≡◌, true, Some, IfOk, option_map};
ghost use Rattle.std.specs.Option.{option_copied};
ghost use Rattle.ess_semantics.specs.Trees.{node_ex, binary};
ghost use Rattle.ess_core.specs.TreeViews.{pure_pat};
ghost use Rattle.ess_core_nodes.specs.NodeViews.{pure_node, pure_nodes, pure_gens, pure_dom, pure_op};
ghost use Rattle.ess_keys_laws.specs.KeyForms.{plain_key, key_beside, key_in, key_under, is_sum, are_none, is_fixed, are_fixed, is_fixed_dom};
ghost use Rattle.ess_keys_laws.specs.KeyForms.{other_than, key_of};
ghost use Rattle.ess_keys_laws.specs.Keyed.{if_sure, sure_key};
ghost use Rattle.ess_keys.specs.Views.{pure_around};

use crate::around::{Around, key_now, same_name};
use ess_core::{Op2, Pat};
use ess_core_nodes::{Gen, Node, NodeDom, Op};
use ess_guard_forms::{is_sure, pair_in};
use ess_rows::{Boxed, NoMemory, Text};
use std::alloc::Global;

/// The term, where it is a number or another name than this.
#[tactic(auto, using(ess_core_nodes::proofs::NodeEquations::pure_seen_is))]
fn plain_key<'a>(name: &Text, node: &'a Node) -> Option<&'a Node>
    ensures { option_map pure_node (option_copied result) ≡ plain_key name.now (pure_node node.now) }
{
    match node {
        Node::Number(_) => Some(node),
        Node::Name(other) => {
            if same_name(name, other) {
                None
            } else {
                Some(node)
            }
        }
        _ => None,
    }
}

/// The key, where the term before it is this name.
#[tactic(auto, using(ess_core_nodes::proofs::NodeEquations::pure_seen_is))]
fn key_beside<'a>(name: &Text, node: &Node, key: &'a Node) -> Option<&'a Node>
    ensures { option_map pure_node (option_copied result) ≡ key_beside name.now (pure_node node.now) (pure_node key.now) }
{
    match node {
        Node::Name(other) => {
            if same_name(name, other) {
                plain_key(name, key)
            } else {
                None
            }
        }
        _ => None,
    }
}

/// The key that the name equals where the condition holds.
#[cycle(key_in)]
#[tactic(auto, using(ess_core_nodes::proofs::NodeEquations::pure_seen_is))]
fn key_in<'a>(name: &Text, node: &'a Node) -> Option<&'a Node>
    ensures { option_map pure_node (option_copied result) ≡ key_in name.now (pure_node node.now) }
{
    match node {
        Node::Op(true, Op::Binary(op), operands) => key_by(name, *op, operands.as_slice()),
        _ => None,
    }
}

/// The same of a Boolean operator on these operands.
#[cycle(key_in)]
#[tactic(auto, using(crate::proofs::Pairs::no_key))]
fn key_by<'a>(name: &Text, op: Op2, operands: &'a [Node]) -> Option<&'a Node>
    ensures { option_map pure_node (option_copied result) ≡ key_in name.now (node_ex true (binary op) (pure_nodes operands.now)) }
{
    match pair_in(operands) {
        None => None,
        Some((first, second)) => match op {
            Op2::Eq => match key_beside(name, first, second) {
                Some(key) => Some(key),
                None => key_beside(name, second, first),
            },
            Op2::And => match key_in(name, first) {
                Some(key) => Some(key),
                None => key_in(name, second),
            },
            _ => None,
        },
    }
}

/// The key that the name equals where the conditions hold that come first.
#[tactic(auto, using(ess_core_nodes::proofs::NodeEquations::pure_gen_over, ess_core_nodes::proofs::NodeEquations::pure_gen_from, ess_core_nodes::proofs::NodeEquations::pure_gen_if))]
fn key_under<'a>(name: &Text, gens: &'a [Gen]) -> Option<&'a Node>
    ensures { option_map pure_node (option_copied result) ≡ key_under name.now (pure_gens gens.now) }
{
    match gens.split_first() {
        None => None,
        Some((Gen::Over(_, _), _)) => None,
        Some((Gen::From(_, _), _)) => None,
        Some((Gen::If(condition), rest)) => match key_in(name, condition.get()) {
            Some(key) => Some(key),
            None => key_under(name, rest),
        },
    }
}

/// Whether it is a sum or a difference.
fn is_sum(op: &Op) -> bool
    ensures { result ≡ is_sum (pure_op op.now) }
{
    match op {
        Op::Binary(Op2::Plus | Op2::Minus) => true,
        _ => false,
    }
}

/// Whether the term means the same wherever it stands.
#[cycle(fixed)]
#[tactic(auto, using(ess_core_nodes::proofs::NodeEquations::pure_seen_is))]
fn is_fixed(node: &Node) -> bool
    ensures { result ≡ is_fixed (pure_node node.now) }
{
    match node {
        Node::Number(_) => true,
        Node::Cell(mark, _, at) => !*mark && is_no_index(at.as_slice()),
        Node::Op(mark, op, operands) => !*mark && is_sum(op) && are_fixed(operands.as_slice()),
        _ => false,
    }
}

/// Whether there are no indices.
pub(crate) fn is_no_index(at: &[Node]) -> bool
    ensures { result ≡ are_none (pure_nodes at.now) }
{
    match at.split_first() {
        None => true,
        Some(_) => false,
    }
}

/// The same of several terms.
#[cycle(fixed)]
fn are_fixed(nodes: &[Node]) -> bool
    ensures { result ≡ are_fixed (pure_nodes nodes.now) }
{
    for node in nodes {
        if !is_fixed(node) {
            return false;
        }
    }
    true
}

/// The same of a domain.
fn is_fixed_dom(dom: &NodeDom) -> bool
    ensures { result ≡ is_fixed_dom (pure_dom dom.now) }
{
    match dom {
        NodeDom::Bool => true,
        NodeDom::Int(_, bounds) => are_fixed(bounds.as_slice()),
        NodeDom::Name(_) => true,
        _ => false,
    }
}

/// A key that isn't this name.
#[tactic(auto, using(ess_core_nodes::proofs::NodeEquations::pure_seen_is))]
fn other_than<'a>(name: &Text, key: Option<&'a Node>) -> Option<&'a Node>
    ensures { option_map pure_node (option_copied result) ≡ other_than name.now (option_map pure_node (option_copied key.entry)) }
{
    match key {
        None => None,
        Some(node) => match node {
            Node::Name(other) => {
                if same_name(name, other) {
                    None
                } else {
                    Some(node)
                }
            }
            _ => Some(node),
        },
    }
}

/// The key that the name equals where the conditions hold that come first, or behind generators over fixed domains.
#[tactic(auto, using(ess_core_nodes::proofs::NodeEquations::pure_gen_over, ess_core_nodes::proofs::NodeEquations::pure_gen_from, ess_core_nodes::proofs::NodeEquations::pure_gen_if, ess_core::proofs::PartEquations::pure_pat_name, ess_core::proofs::PartEquations::pure_pat_tuple))]
fn key_of<'a>(name: &Text, gens: &'a [Gen]) -> Option<&'a Node>
    ensures { option_map pure_node (option_copied result) ≡ key_of name.now (pure_gens gens.now) }
{
    match gens.split_first() {
        None => None,
        Some((Gen::Over(Pat::Name(bound), dom), rest)) => {
            if !same_name(bound, name) && is_fixed_dom(dom.get()) {
                other_than(bound, key_of(name, rest))
            } else {
                None
            }
        }
        Some((Gen::Over(Pat::Tuple(_), _), _)) => None,
        Some((Gen::From(_, _), _)) => None,
        Some((Gen::If(_), _)) => key_under(name, gens),
    }
}

/// The key that stands for the name of a generator over a domain, where what stands behind says which, and it is sure to lie in it.
#[tactic(auto, using(ess_core::proofs::PartEquations::pure_pat_name, ess_core::proofs::PartEquations::pure_pat_tuple))]
pub(crate) fn sure_key(
    alloc: Global,
    around: &Around,
    pat: &Pat,
    dom: &NodeDom,
    behind: &[Gen],
) -> Result<Option<Boxed<Node>>, NoMemory>
    ensures { IfOk result (λ o. option_map pure_node o
        ≡ sure_key (pure_around around.now) (pure_pat pat.now) (pure_dom dom.now) (pure_gens behind.now)) }
{
    match pat {
        Pat::Tuple(_) => Ok(None),
        Pat::Name(name) => match key_of(name, behind) {
            None => Ok(None),
            Some(key) => when_sure(alloc, around, key, dom),
        },
    }
}

/// What stands for the key, where it is sure to lie in the domain.
fn when_sure(
    alloc: Global,
    around: &Around,
    key: &Node,
    dom: &NodeDom,
) -> Result<Option<Boxed<Node>>, NoMemory>
    ensures { IfOk result (λ o. option_map pure_node o
        ≡ if_sure (pure_around around.now) (pure_dom dom.now) (Some (pure_node key.now))) }
{
    let key = key_now(alloc, around.keys.as_slice(), key)?;
    if is_sure(around.known.as_slice(), key.get(), dom) {
        Ok(Some(key))
    } else {
        Ok(None)
    }
}
