//! Rows of trees.
ghost use Rattle.std.specs.Prelude.{◌≡◌, ◌++◌, [], ◌∷◌, IfOk, map};
ghost use Rattle.ess_core_nodes.specs.NodeViews.{pure_node};

use ess_core_nodes::Node;
use ess_rows::{Boxed, NoMemory, Row};
use std::alloc::Global;

/// A row of one tree.
pub fn only(alloc: Global, node: Boxed<Node>) -> Result<Row<Node>, NoMemory>
    ensures { IfOk result (λ ns. map pure_node ns ≡ pure_node node ∷ []) }
{
    let mut row = Row::new(alloc);
    row.push(node.into_inner())?;
    Ok(row)
}

/// A row of two trees.
pub fn two(alloc: Global, first: Boxed<Node>, second: Boxed<Node>) -> Result<Row<Node>, NoMemory>
    ensures { IfOk result (λ ns. map pure_node ns ≡ pure_node first ∷ pure_node second ∷ []) }
{
    let mut row = Row::new(alloc);
    row.push(first.into_inner())?;
    row.push(second.into_inner())?;
    Ok(row)
}

/// Trees behind others.
pub fn joined(mut first: Row<Node>, mut second: Row<Node>) -> Result<Row<Node>, NoMemory>
    ensures { IfOk result (λ ns. map pure_node ns ≡ map pure_node first ++ map pure_node second) }
{
    first.append(&mut second)?;
    Ok(first)
}
