//! Generators and conditions.
ghost use Rattle.std.specs.Prelude.{◌≡◌, IfOk};
ghost use Rattle.ess_semantics.specs.Trees.{name_pat};
ghost use Rattle.ess_core.specs.TreeViews.{over_item, from_item, cond_item};
ghost use Rattle.ess_core_nodes.specs.NodeViews.{pure_node, pure_gen, pure_dom};

use ess_core::Pat;
use ess_core_nodes::{Gen, Node, NodeDom};
use ess_rows::{Boxed, NoMemory, Text};
use std::alloc::Global;

/// A generator that binds a name over a domain.
pub fn over(alloc: Global, name: &Text, dom: Boxed<NodeDom>) -> Result<Gen, NoMemory>
    ensures { IfOk result (λ g. pure_gen g ≡ over_item (name_pat name.now) (pure_dom dom)) }
{
    let name = name.copy(alloc)?;
    Ok(Gen::Over(Pat::Name(name), dom))
}

/// A generator that binds a name over a value.
pub fn from(alloc: Global, name: &Text, value: Boxed<Node>) -> Result<Gen, NoMemory>
    ensures { IfOk result (λ g. pure_gen g ≡ from_item (name_pat name.now) (pure_node value)) }
{
    let name = name.copy(alloc)?;
    Ok(Gen::From(Pat::Name(name), value))
}

/// A condition.
pub fn condition(condition: Boxed<Node>) -> Gen
    ensures { pure_gen result ≡ cond_item (pure_node condition) }
{
    Gen::If(condition)
}
