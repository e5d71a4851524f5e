//! Domains without attributes, with other bounds and parts.
ghost use Rattle.std.specs.Prelude.{◌≡◌, IfOk, map};
ghost use Rattle.ess_semantics.specs.Trees.{int_dom, name_dom, tuple_dom, record_dom, matrix_dom};
ghost use Rattle.ess_core_nodes.specs.NodeViews.{pure_nodes, pure_dom, pure_doms, pure_ends};

use ess_core_nodes::{Ends, Node, NodeDom, copy_texts};
use ess_rows::{Boxed, NoMemory, Row, Text};
use std::alloc::Global;

/// The whole numbers within ranges of these forms, by their bounds. `NoMemory` where there is no room for it.
pub fn int_domain(
    alloc: Global,
    ends: &[Ends],
    bounds: Row<Node>,
) -> Result<Boxed<NodeDom>, NoMemory>
    ensures { IfOk result (λ d. pure_dom d ≡ int_dom (map pure_ends ends.now) (pure_nodes bounds)) }
{
    let ends = Row::from_slice(alloc, ends)?;
    Boxed::new(alloc, NodeDom::Int(ends, bounds))
}

/// The type of this name. `NoMemory` where there is no room for it.
pub fn named_domain(alloc: Global, name: &Text) -> Result<Boxed<NodeDom>, NoMemory>
    ensures { IfOk result (λ d. pure_dom d ≡ name_dom name.now) }
{
    let name = name.copy(alloc)?;
    Boxed::new(alloc, NodeDom::Name(name))
}

/// Tuples with components from these domains. `NoMemory` where there is no room for it.
pub fn tuple_domain(alloc: Global, doms: Row<NodeDom>) -> Result<Boxed<NodeDom>, NoMemory>
    ensures { IfOk result (λ d. pure_dom d ≡ tuple_dom (pure_doms doms)) }
{
    Boxed::new(alloc, NodeDom::Tuple(doms))
}

/// Records with these fields from these domains. `NoMemory` where there is no room for it.
pub fn record_domain(
    alloc: Global,
    names: &[Text],
    doms: Row<NodeDom>,
) -> Result<Boxed<NodeDom>, NoMemory>
    ensures { IfOk result (λ d. pure_dom d ≡ record_dom names.now (pure_doms doms)) }
{
    let names = copy_texts(alloc, names)?;
    Boxed::new(alloc, NodeDom::Record(names, doms))
}

/// Matrices over these index domains with items from a domain. `NoMemory` where there is no room for it.
pub fn matrix_domain(
    alloc: Global,
    axes: Row<NodeDom>,
    item: Boxed<NodeDom>,
) -> Result<Boxed<NodeDom>, NoMemory>
    ensures { IfOk result (λ d. pure_dom d ≡ matrix_dom (pure_doms axes) (pure_dom item)) }
{
    Boxed::new(alloc, NodeDom::Matrix(axes, item))
}
