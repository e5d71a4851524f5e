//! An operator on a picked value becomes one on the item of its lookup.
ghost use Rattle.std.specs.Prelude.{◌≡◌, option_map, IfOk, ◌&&◌, is_some};
ghost use Rattle.ess_semantics.specs.Trees.{unary, binary, node_ex, name_ex};
ghost use Rattle.ess_core_nodes.specs.NodeViews.{pure_node, pure_nodes, pure_op};
ghost use Rattle.ess_rules_laws.specs.LiteralRules.{nth as nth_of};
ghost use Rattle.ess_rules_laws.specs.Lookups.{is_plain as plain, select as selected, select_whole as whole_selected, put_nth as with_nth};
ghost use Rattle.ess_rules_laws.specs.PartLookups.{lookup_through as looked_through};

use crate::operands::{has_nth, put_nth};
use crate::picked::{items_of, picking};
use ess_core::{Op1, Op2};
use ess_core_nodes::{Node, Op};
use ess_node_building::name;
use ess_rows::{Boxed, NoMemory, Text};
use std::alloc::Global;

/// Whether an operator has nothing where an operand has nothing: each but the connectives.
pub fn is_plain(op: &Op) -> bool
    ensures { result ≡ plain (pure_op op.now) }
{
    match op {
        Op::Unary(op) => is_plain_before(*op),
        Op::Binary(op) => is_plain_between(*op),
        _ => true,
    }
}

/// The same of an operator before one operand.
fn is_plain_before(op: Op1) -> bool
    ensures { result ≡ plain (unary op) }
{
    match op {
        Op1::Not => false,
        _ => true,
    }
}

/// The same of an operator between two operands.
fn is_plain_between(op: Op2) -> bool
    ensures { result ≡ plain (binary op) }
{
    match op {
        Op2::And | Op2::Or | Op2::Implies | Op2::Iff => false,
        _ => true,
    }
}

/// Whether an operator has nothing where its operand at a place, from 1, has nothing, and there is one.
pub fn takes(op: &Op, operands: &[Node], at: u64) -> bool
    ensures { result ≡ plain (pure_op op.now) && is_some (nth_of (pure_nodes operands.now) at) }
{
    is_plain(op) && has_nth(operands, at)
}

/// `N[t]` is `or([N[x] | x <- l])` or `sum([N[x] | x <- l])`, where t is the operand of N at a place, l looks it up, and x is a new
/// name. `NoMemory` where there is no room for it.
#[tactic(auto, using(ess_core_nodes::proofs::NodeEquations::pure_seen_is))]
pub fn select(
    alloc: Global,
    bound: &Text,
    at: u64,
    lookup: &Node,
    node: &Node,
) -> Result<Option<Boxed<Node>>, NoMemory>
    ensures { IfOk result (λ o. option_map pure_node o ≡ selected bound.now at (pure_node lookup.now) (pure_node node.now)) }
{
    match node {
        Node::Op(mark, op, operands) => {
            if takes(op, operands.as_slice(), at) {
                let body = with_item(alloc, bound, at, *mark, op, operands.as_slice())?;
                let lookup = lookup.copy(alloc)?;
                Ok(Some(picking(alloc, *mark, bound, lookup, body)?))
            } else {
                Ok(None)
            }
        }
        _ => Ok(None),
    }
}

/// `N[t]` is looked up by `[N[x] | x <- l]`, where t is the operand of N at a place, l looks it up, and x is a new name. `NoMemory`
/// where there is no room for it.
#[tactic(auto, using(ess_core_nodes::proofs::NodeEquations::pure_seen_is))]
pub fn lookup_through(
    alloc: Global,
    bound: &Text,
    at: u64,
    lookup: &Node,
    node: &Node,
) -> Result<Option<Boxed<Node>>, NoMemory>
    ensures { IfOk result (λ o. option_map pure_node o ≡ looked_through bound.now at (pure_node lookup.now) (pure_node node.now)) }
{
    match node {
        Node::Op(mark, op, operands) => {
            if takes(op, operands.as_slice(), at) {
                let body = with_item(alloc, bound, at, *mark, op, operands.as_slice())?;
                let lookup = lookup.copy(alloc)?;
                Ok(Some(items_of(alloc, bound, lookup, body)?))
            } else {
                Ok(None)
            }
        }
        _ => Ok(None),
    }
}

/// The tree of an operator with a name in the place of the operand at a place, from 1. `NoMemory` where there is no room for it.
pub fn with_item(
    alloc: Global,
    bound: &Text,
    at: u64,
    mark: bool,
    op: &Op,
    operands: &[Node],
) -> Result<Boxed<Node>, NoMemory>
    ensures { IfOk result (λ n. pure_node n
        ≡ node_ex mark (pure_op op.now) (with_nth (pure_nodes operands.now) at (name_ex bound.now))) }
{
    let item = name(alloc, bound)?;
    let operands = put_nth(alloc, operands, at, item)?;
    let op = op.copy(alloc)?;
    Boxed::new(alloc, Node::Op(mark, op, operands))
}

/// `t` is `or([x | x <- l])` or `sum([x | x <- l])`, where l looks up t. `NoMemory` where there is no room for it.
#[tactic(auto, using(ess_core_nodes::proofs::NodeEquations::pure_seen_is))]
pub fn select_whole(
    alloc: Global,
    bound: &Text,
    lookup: &Node,
    node: &Node,
) -> Result<Option<Boxed<Node>>, NoMemory>
    ensures { IfOk result (λ o. option_map pure_node o ≡ whole_selected bound.now (pure_node lookup.now) (pure_node node.now)) }
{
    match node {
        Node::Op(mark, _, _) => {
            let item = name(alloc, bound)?;
            let lookup = lookup.copy(alloc)?;
            Ok(Some(picking(alloc, *mark, bound, lookup, item)?))
        }
        _ => Ok(None),
    }
}
