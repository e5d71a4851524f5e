//! Matrices whose items are compared by their numbers.
ghost use Rattle.std.specs.Prelude.{◌≡◌, IfOk};
ghost use Rattle.ess_core_nodes.specs.NodeViews.{pure_node};
ghost use Rattle.ess_rules_numbered.specs.SideForms.{at_numbers, items_at};

use crate::sources::numbers_of;
use ess_core::{Fun, Op2, Ty};
use ess_core_nodes::Node;
use ess_node_building::{binary, comprehension, word};
use ess_rows::{Boxed, NoMemory, Row, Text};
use ess_rules_ordered::item_at;
use std::alloc::Global;

/// A matrix with the type of its items.
#[derive(Clone, Copy)]
pub(crate) struct Items<'a> {
    /// The matrix.
    pub matrix: &'a Node,
    /// The type of its items.
    pub ty: &'a Ty,
}

/// Two matrices, the first of which is a list, or both.
#[derive(Clone, Copy)]
pub(crate) struct Sides<'a> {
    /// The name for numbers of items.
    pub one: &'a Text,
    /// The name for items that are counted, and for other numbers.
    pub other: &'a Text,
    /// How many items the list that is counted has at most.
    pub most: &'a Node,
    /// The first matrix.
    pub first: Items<'a>,
    /// The second matrix.
    pub second: Items<'a>,
}

/// That the body holds at the number of each item of the first list.
pub(crate) fn at_each_number(
    alloc: Global,
    sides: &Sides<'_>,
    body: Boxed<Node>,
) -> Result<Boxed<Node>, NoMemory>
    ensures { IfOk result (λ n. pure_node n ≡ at_numbers sides.now (pure_node body)) }
{
    let gens = numbers_of(
        alloc,
        sides.one,
        sides.other,
        sides.most,
        sides.first.matrix,
        Row::new(alloc),
    )?;
    word(alloc, true, Fun::And, comprehension(alloc, body, gens)?)
}

/// The items of both at the number of this name, with an operator between them.
pub(crate) fn items_compared(
    alloc: Global,
    op: Op2,
    at: &Text,
    sides: &Sides<'_>,
) -> Result<Boxed<Node>, NoMemory>
    ensures { IfOk result (λ n. pure_node n ≡ items_at op at.now sides.now) }
{
    let left = item_at(alloc, sides.first.ty, sides.first.matrix, at)?;
    let right = item_at(alloc, sides.second.ty, sides.second.matrix, at)?;
    binary(alloc, true, op, left, right)
}
