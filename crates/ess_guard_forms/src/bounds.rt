//! Which bounds are one by their form.
ghost use Rattle.std.specs.Prelude.{◌≡◌, false};
ghost use Rattle.ess_semantics.specs.Trees.{node_ex, binary};
ghost use Rattle.ess_core_nodes.specs.NodeViews.{pure_node, pure_nodes};
ghost use Rattle.ess_guard_laws.specs.Origins.{same_bound as is_same_bound};

use crate::known::same_name;
use crate::operands::pair_in;
use ess_core::Op2;
use ess_core_nodes::{Node, Op};

/// Whether two bounds are one by their form.
#[cycle(bounds)]
#[tactic(auto, using(ess_core_nodes::proofs::NodeEquations::pure_seen_is))]
pub(crate) fn same_bound(a: &Node, b: &Node) -> bool
    ensures { result ≡ is_same_bound (pure_node a.now) (pure_node b.now) }
{
    match a {
        Node::Number(number) => match b {
            Node::Number(other) => *number == *other,
            _ => false,
        },
        Node::Cell(true, _, _) => false,
        Node::Cell(false, name, at) => match at.as_slice().split_first() {
            None => match b {
                Node::Cell(false, other, at) => match at.as_slice().split_first() {
                    None => same_name(name, other),
                    Some(_) => false,
                },
                _ => false,
            },
            Some(_) => false,
        },
        Node::Op(true, _, _) => false,
        Node::Op(false, Op::Binary(op), operands) => same_sums(*op, operands.as_slice(), b),
        _ => false,
    }
}

/// The same of an operator that isn't Boolean, and a bound.
#[cycle(bounds)]
fn same_sums(op: Op2, operands: &[Node], b: &Node) -> bool
    ensures { result ≡ is_same_bound (node_ex false (binary op) (pure_nodes operands.now)) (pure_node b.now) }
{
    match op {
        Op2::Plus => same_plus(operands, b),
        Op2::Minus => same_minus(operands, b),
        _ => false,
    }
}

/// The same of a sum.
#[cycle(bounds)]
#[tactic(auto, using(ess_core_nodes::proofs::NodeEquations::pure_seen_is, crate::proofs::SumForms::no_sum, crate::proofs::SumForms::no_other_sum))]
fn same_plus(operands: &[Node], b: &Node) -> bool
    ensures { result ≡ is_same_bound (node_ex false (binary Op2.Plus) (pure_nodes operands.now)) (pure_node b.now) }
{
    match pair_in(operands) {
        None => false,
        Some((first, second)) => match b {
            Node::Op(false, Op::Binary(Op2::Plus), others) => match pair_in(others.as_slice()) {
                None => false,
                Some((third, fourth)) => same_bound(first, third) && same_bound(second, fourth),
            },
            _ => false,
        },
    }
}

/// The same of a difference.
#[cycle(bounds)]
#[tactic(auto, using(ess_core_nodes::proofs::NodeEquations::pure_seen_is, crate::proofs::SumForms::no_difference, crate::proofs::SumForms::no_other_difference))]
fn same_minus(operands: &[Node], b: &Node) -> bool
    ensures { result ≡ is_same_bound (node_ex false (binary Op2.Minus) (pure_nodes operands.now)) (pure_node b.now) }
{
    match pair_in(operands) {
        None => false,
        Some((first, second)) => match b {
            Node::Op(false, Op::Binary(Op2::Minus), others) => match pair_in(others.as_slice()) {
                None => false,
                Some((third, fourth)) => same_bound(first, third) && same_bound(second, fourth),
            },
            _ => false,
        },
    }
}
