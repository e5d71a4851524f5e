//! Numerals, and how many numbers there are between two bounds.
ghost use Rattle.std.specs.Prelude.{◌≡◌, IfOk};
ghost use Rattle.ess_core_nodes.specs.NodeViews.{pure_node};
ghost use Rattle.ess_repr_declare_laws.specs.SizeTerms.{numeral as numeral_of, is_numeral as is_numeral_of, numerals_order as order_of, span_ex, between_ex};

use crate::terms::{at_least_0, next};
use ess_core::Op2;
use ess_core_nodes::Node;
use ess_node_building::{binary, number};
use ess_rows::{Boxed, NoMemory};
use std::alloc::Global;
use std::cmp::Ordering;

/// The number of a numeral.
#[tactic(auto, using(ess_core_nodes::proofs::NodeEquations::pure_seen_is))]
fn numeral(node: &Node) -> Option<i64>
    ensures { result ≡ numeral_of (pure_node node.now) }
{
    match node {
        Node::Number(number) => Some(*number),
        _ => None,
    }
}

/// Whether the term is this numeral.
fn is_numeral(node: &Node, number: i64) -> bool
    ensures { result ≡ is_numeral_of number (pure_node node.now) }
{
    match numeral(node) {
        Some(found) => found == number,
        None => false,
    }
}

/// The order of two numerals.
fn numerals_order(low: &Node, high: &Node) -> Option<Ordering>
    ensures { result ≡ order_of (pure_node low.now) (pure_node high.now) }
{
    match (numeral(low), numeral(high)) {
        (Some(low), Some(high)) => Some(low.cmp(&high)),
        _ => None,
    }
}

/// How many numbers there are from a bound to another one that isn't below it.
fn span(alloc: Global, low: Boxed<Node>, high: Boxed<Node>) -> Result<Boxed<Node>, NoMemory>
    ensures { IfOk result (λ n. pure_node n ≡ span_ex (pure_node low) (pure_node high)) }
{
    if is_numeral(low.get(), 0) {
        return next(alloc, high);
    }
    if is_numeral(low.get(), 1) {
        return Ok(high);
    }
    let one = number(alloc, 1)?;
    let behind = binary(alloc, false, Op2::Minus, one, low)?;
    binary(alloc, false, Op2::Plus, behind, high)
}

/// How many numbers there are from a bound to another one.
pub(crate) fn between(
    alloc: Global,
    low: Boxed<Node>,
    high: Boxed<Node>,
) -> Result<Boxed<Node>, NoMemory>
    ensures { IfOk result (λ n. pure_node n ≡ between_ex (pure_node low) (pure_node high)) }
{
    match numerals_order(low.get(), high.get()) {
        Some(Ordering::Less) => span(alloc, low, high),
        Some(Ordering::Equal) => number(alloc, 1),
        Some(Ordering::Greater) => number(alloc, 0),
        None => {
            let numbers = span(alloc, low, high)?;
            at_least_0(alloc, numbers)
        }
    }
}
