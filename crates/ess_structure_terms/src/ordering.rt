//! The cells at one index list are below those at another one.
ghost use Rattle.std.specs.Prelude.{◌≡◌, true, IfOk};
ghost use Rattle.ess_semantics.specs.Trees.{ex2};
ghost use Rattle.ess_core_nodes.specs.NodeViews.{pure_node, pure_nodes};
ghost use Rattle.ess_repr_laws.specs.StructureParts.{and_ex, or_ex, row_ex, less_ex, at_most_ex};
ghost use Rattle.conjure_model_laws.specs.ToldApart.{reserved};
ghost use Rattle.ess_structure_terms.specs.ShapeViews.{pure_shape, pure_shapes};

use crate::shapes::{Shape, row};
use crate::terms::{both, either};
use ess_core::Op2;
use ess_core_nodes::Node;
use ess_node_building::{binary, truth};
use ess_rows::{Boxed, NoMemory};
use std::alloc::Global;

/// The rows of a table at two index lists, compared.
fn compared(
    alloc: Global,
    op: Op2,
    level: u64,
    shape: &Shape,
    at: &[Node],
    other: &[Node],
) -> Result<Boxed<Node>, NoMemory>
    ensures { IfOk result (λ n. pure_node n ≡ ex2 true op (row_ex reserved level (pure_shape shape.now) (pure_nodes at.now))
        (row_ex reserved level (pure_shape shape.now) (pure_nodes other.now))) }
{
    let first = row(alloc, level, shape, at)?;
    let second = row(alloc, level, shape, other)?;
    binary(alloc, true, op, first, second)
}

/// The rows of a table are in order, where this says of equal ones that they are.
fn in_order(
    alloc: Global,
    level: u64,
    shape: &Shape,
    at: &[Node],
    other: &[Node],
    behind: Boxed<Node>,
) -> Result<Boxed<Node>, NoMemory>
    ensures { IfOk result (λ n. pure_node n ≡
        or_ex (ex2 true Op2.LexLt (row_ex reserved level (pure_shape shape.now) (pure_nodes at.now))
        (row_ex reserved level (pure_shape shape.now) (pure_nodes other.now)))
        (and_ex (ex2 true Op2.LexLe (row_ex reserved level (pure_shape shape.now) (pure_nodes at.now))
        (row_ex reserved level (pure_shape shape.now) (pure_nodes other.now))) (pure_node behind))) }
{
    let below = compared(alloc, Op2::LexLt, level, shape, at, other)?;
    let not_above = compared(alloc, Op2::LexLe, level, shape, at, other)?;
    let second = both(alloc, not_above, behind)?;
    either(alloc, below, second)
}

/// The cells at the one index list are below those at the other one.
pub fn less(
    alloc: Global,
    level: u64,
    shapes: &[Shape],
    at: &[Node],
    other: &[Node],
) -> Result<Boxed<Node>, NoMemory>
    ensures { IfOk result (λ n. pure_node n ≡ less_ex reserved level (pure_shapes shapes.now) (pure_nodes at.now) (pure_nodes
        other.now)) }
{
    match shapes.split_first() {
        None => truth(alloc, false),
        Some((shape, rest)) => {
            let behind = less(alloc, level, rest, at, other)?;
            in_order(alloc, level, shape, at, other, behind)
        }
    }
}

/// They are below, or equal.
pub fn not_above(
    alloc: Global,
    level: u64,
    shapes: &[Shape],
    at: &[Node],
    other: &[Node],
) -> Result<Boxed<Node>, NoMemory>
    ensures { IfOk result (λ n. pure_node n ≡ at_most_ex reserved level (pure_shapes shapes.now) (pure_nodes at.now) (pure_nodes
        other.now)) }
{
    match shapes.split_first() {
        None => truth(alloc, true),
        Some((shape, rest)) => {
            let behind = not_above(alloc, level, rest, at, other)?;
            in_order(alloc, level, shape, at, other, behind)
        }
    }
}
