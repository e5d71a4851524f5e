//! Small domains: truth values, and numbers between two bounds.
ghost use Rattle.std.specs.Prelude.{◌≡◌, IfOk};
ghost use Rattle.ess_semantics.specs.Trees.{bool_dom};
ghost use Rattle.ess_core_nodes.specs.NodeViews.{pure_node, pure_dom};
ghost use Rattle.ess_repr_laws.specs.StructureParts.{upto};
ghost use Rattle.ess_repr_declare_laws.specs.SizeTerms.{zero_ex, one_ex, listed_ex};
ghost use Rattle.ess_repr_declare_laws.specs.DeclaredTrees.{from_to};

use ess_core_nodes::{Ends, Node, NodeDom};
use ess_node_building::{number, two};
use ess_rows::{Boxed, NoMemory, Row};
use ess_size_terms::listed;
use ess_structure_terms::upto;
use std::alloc::Global;

/// `bool`
pub(crate) fn truths(alloc: Global) -> Result<Boxed<NodeDom>, NoMemory>
    ensures { IfOk result (λ d. pure_dom d ≡ bool_dom) }
{
    Boxed::new(alloc, NodeDom::Bool)
}

/// From a number to a number.
fn from_to(alloc: Global, low: Boxed<Node>, high: Boxed<Node>) -> Result<Boxed<NodeDom>, NoMemory>
    ensures { IfOk result (λ d. pure_dom d ≡ from_to (pure_node low) (pure_node high)) }
{
    let bounds = two(alloc, low, high)?;
    let ends = Row::from_array(alloc, [Ends::Both])?;
    Boxed::new(alloc, NodeDom::Int(ends, bounds))
}

/// From 0 to a number.
pub(crate) fn from_zero(alloc: Global, high: Boxed<Node>) -> Result<Boxed<NodeDom>, NoMemory>
    ensures { IfOk result (λ d. pure_dom d ≡ from_to zero_ex (pure_node high)) }
{
    let zero = number(alloc, 0)?;
    from_to(alloc, zero, high)
}

/// 0 and 1.
pub(crate) fn zero_and_one(alloc: Global) -> Result<Boxed<NodeDom>, NoMemory>
    ensures { IfOk result (λ d. pure_dom d ≡ from_to zero_ex one_ex) }
{
    let one = number(alloc, 1)?;
    from_zero(alloc, one)
}

/// As many numbers from 1 on as a domain has members.
pub(crate) fn upto_listed(alloc: Global, dom: &NodeDom) -> Result<Boxed<NodeDom>, NoMemory>
    ensures { IfOk result (λ d. pure_dom d ≡ upto (listed_ex (pure_dom dom.now))) }
{
    let members = listed(alloc, dom)?;
    upto(alloc, members)
}
