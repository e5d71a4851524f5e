//! Tables of views: their rows of cells, and that all cells are 0 or false.
ghost use Rattle.std.specs.Prelude.{◌≡◌, IfOk, map};
ghost use Rattle.ess_semantics.specs.Trees.{cell_ex};
ghost use Rattle.ess_core_nodes.specs.NodeViews.{pure_node, pure_nodes, pure_dom};
ghost use Rattle.ess_repr_laws.specs.StructureParts.{row_index, row_ex, out_ex, zero_ex, zeros_ex};
ghost use Rattle.conjure_model_laws.specs.ToldApart.{reserved};
ghost use Rattle.ess_structure_terms.specs.ShapeViews.{pure_shape, pure_shapes};

use crate::indices::{row_gens, row_index};
use crate::terms::{all_over, both, equal, negated};
use ess_core_nodes::{Node, NodeDom, copy_nodes};
use ess_node_building::{comprehension, number, truth};
use ess_rows::{Boxed, NoMemory, Row, Text};
use std::alloc::Global;

/// A table of a view: its name, whether it holds truth values, and the axes behind the view's index list.
#[derive(Drop)]
pub struct Shape {
    pub name: Text,
    pub truth: bool,
    pub axes: Row<NodeDom>,
}

/// A cell.
fn cell(
    alloc: Global,
    is_bool: bool,
    name: &Text,
    index: Row<Node>,
) -> Result<Boxed<Node>, NoMemory>
    ensures { IfOk result (λ n. pure_node n ≡ cell_ex is_bool name.now (pure_nodes index)) }
{
    let name = name.copy(alloc)?;
    Boxed::new(alloc, Node::Cell(is_bool, name, index))
}

/// The cell at an index list. `NoMemory` where there is no room for it.
pub fn cell_at(
    alloc: Global,
    is_bool: bool,
    name: &Text,
    at: &[Node],
) -> Result<Boxed<Node>, NoMemory>
    ensures { IfOk result (λ n. pure_node n ≡ cell_ex is_bool name.now (pure_nodes at.now)) }
{
    let index = copy_nodes(alloc, at)?;
    cell(alloc, is_bool, name, index)
}

/// The cell at the place of the axes that the names from this number on have.
pub fn cell_over(
    alloc: Global,
    is_bool: bool,
    level: u64,
    axes: &[NodeDom],
    name: &Text,
    at: &[Node],
) -> Result<Boxed<Node>, NoMemory>
    ensures { IfOk result (λ n. pure_node n ≡ cell_ex is_bool name.now (row_index reserved level (map pure_dom axes.now) (pure_nodes
        at.now))) }
{
    let index = row_index(alloc, level, axes, at)?;
    cell(alloc, is_bool, name, index)
}

/// A table's cells row by row.
pub fn row(alloc: Global, level: u64, shape: &Shape, at: &[Node]) -> Result<Boxed<Node>, NoMemory>
    ensures { IfOk result (λ n. pure_node n ≡ row_ex reserved level (pure_shape shape.now) (pure_nodes at.now)) }
{
    let axes = shape.axes.as_slice();
    let item = cell_over(alloc, shape.truth, level, axes, &shape.name, at)?;
    let gens = row_gens(alloc, level, axes)?;
    comprehension(alloc, item, gens)
}

/// The cell is 0 or false.
fn out(alloc: Global, is_bool: bool, name: &Text, index: Row<Node>) -> Result<Boxed<Node>, NoMemory>
    ensures { IfOk result (λ n. pure_node n ≡ out_ex reserved is_bool name.now (pure_nodes index)) }
{
    let cell = cell(alloc, is_bool, name, index)?;
    if is_bool {
        return negated(alloc, cell);
    }
    let zero = number(alloc, 0)?;
    equal(alloc, zero, cell)
}

/// All cells of the table are 0 or false.
fn zero(alloc: Global, level: u64, shape: &Shape, at: &[Node]) -> Result<Boxed<Node>, NoMemory>
    ensures { IfOk result (λ n. pure_node n ≡ zero_ex reserved level (pure_shape shape.now) (pure_nodes at.now)) }
{
    let axes = shape.axes.as_slice();
    let index = row_index(alloc, level, axes, at)?;
    let test = out(alloc, shape.truth, &shape.name, index)?;
    let gens = row_gens(alloc, level, axes)?;
    all_over(alloc, test, gens)
}

/// All cells of the tables are.
pub fn zeros(
    alloc: Global,
    level: u64,
    shapes: &[Shape],
    at: &[Node],
) -> Result<Boxed<Node>, NoMemory>
    ensures { IfOk result (λ n. pure_node n ≡ zeros_ex reserved level (pure_shapes shapes.now) (pure_nodes at.now)) }
{
    match shapes.split_first() {
        None => truth(alloc, true),
        Some((shape, rest)) => {
            let here = zero(alloc, level, shape, at)?;
            let others = zeros(alloc, level, rest, at)?;
            both(alloc, here, others)
        }
    }
}
