//! Operators, matrices, cells and views with other operands.
ghost use Rattle.std.specs.Prelude.{◌≡◌, IfOk};
ghost use Rattle.ess_semantics.specs.Trees.{node_ex, matrix_ex, cell_ex, seen_ex};
ghost use Rattle.ess_core.specs.TreeViews.{pure_repr};
ghost use Rattle.ess_core_nodes.specs.NodeViews.{pure_node, pure_nodes, pure_dom, pure_op, pure_seen};

use ess_core_nodes::{Node, NodeDom, Op, Seen, copy_texts};
use ess_rows::{Boxed, NoMemory, Row, Text};
use std::alloc::Global;

/// A copy of an operator with these operands, Boolean where the mark says so. `NoMemory` where there is no room for it.
pub fn operator(
    alloc: Global,
    mark: bool,
    op: &Op,
    operands: Row<Node>,
) -> Result<Boxed<Node>, NoMemory>
    ensures { IfOk result (λ n. pure_node n ≡ node_ex mark (pure_op op.now) (pure_nodes operands)) }
{
    let op = op.copy(alloc)?;
    Boxed::new(alloc, Node::Op(mark, op, operands))
}

/// A matrix by its items, over an index domain. `NoMemory` where there is no room for it.
pub fn matrix_on(
    alloc: Global,
    items: Row<Node>,
    axis: Boxed<NodeDom>,
) -> Result<Boxed<Node>, NoMemory>
    ensures { IfOk result (λ n. pure_node n ≡ matrix_ex (pure_nodes items) (pure_dom axis)) }
{
    Boxed::new(alloc, Node::MatrixOn(items, axis))
}

/// A cell of the table of this name at these indices: whether it is a truth value comes first. `NoMemory` where there is no room
/// for it.
pub fn cell_at(
    alloc: Global,
    is_bool: bool,
    name: &Text,
    at: Row<Node>,
) -> Result<Boxed<Node>, NoMemory>
    ensures { IfOk result (λ n. pure_node n ≡ cell_ex is_bool name.now (pure_nodes at)) }
{
    let name = name.copy(alloc)?;
    Boxed::new(alloc, Node::Cell(is_bool, name, at))
}

/// A copy of a view at these indices. `NoMemory` where there is no room for it.
#[tactic(auto, using(ess_core_nodes::proofs::NodeEquations::pure_seen_is))]
pub fn view_at(alloc: Global, seen: &Seen, at: Row<Node>) -> Result<Boxed<Node>, NoMemory>
    ensures { IfOk result (λ n. pure_node n
        ≡ seen_ex (pure_repr seen.now.repr) (pure_dom seen.now.dom) seen.now.cells (pure_nodes at)) }
{
    let dom = seen.dom.get().copy(alloc)?;
    let cells = copy_texts(alloc, seen.cells.as_slice())?;
    let repr = seen.repr.copy(alloc)?;
    let seen = Boxed::new(
        alloc,
        Seen {
            repr,
            dom,
            cells,
            at,
        },
    )?;
    Boxed::new(alloc, Node::Seen(seen))
}

/// A copy of a view. `NoMemory` where there is no room for it.
#[tactic(auto, using(ess_core_nodes::proofs::NodeEquations::pure_seen_is))]
pub fn view(alloc: Global, seen: &Seen) -> Result<Boxed<Node>, NoMemory>
    ensures { IfOk result (λ n. pure_node n ≡ pure_seen seen.now) }
{
    let seen = seen.copy(alloc)?;
    Boxed::new(alloc, Node::Seen(seen))
}
