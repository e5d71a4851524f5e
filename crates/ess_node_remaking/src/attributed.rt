//! Domains with attributes, with other numbers and parts.
ghost use Rattle.std.specs.Prelude.{◌≡◌, IfOk, map};
ghost use Rattle.ess_semantics.specs.Trees.{set_dom, mset_dom, function_dom, relation_dom, partition_dom};
ghost use Rattle.ess_core_nodes.specs.NodeViews.{pure_nodes, pure_dom, pure_doms, pure_mark};

use ess_core_nodes::{Mark, Node, NodeDom};
use ess_rows::{Boxed, NoMemory, Row};
use std::alloc::Global;

/// Sets of members of a domain, with these attributes and their numbers. `NoMemory` where there is no room for it.
pub fn set_domain(
    alloc: Global,
    marks: &[Mark],
    numbers: Row<Node>,
    member: Boxed<NodeDom>,
) -> Result<Boxed<NodeDom>, NoMemory>
    ensures { IfOk result (λ d. pure_dom d ≡ set_dom (map pure_mark marks.now) (pure_nodes numbers) (pure_dom member)) }
{
    let marks = Row::from_slice(alloc, marks)?;
    Boxed::new(alloc, NodeDom::Set(marks, numbers, member))
}

/// The same of multisets.
pub fn mset_domain(
    alloc: Global,
    marks: &[Mark],
    numbers: Row<Node>,
    member: Boxed<NodeDom>,
) -> Result<Boxed<NodeDom>, NoMemory>
    ensures { IfOk result (λ d. pure_dom d ≡ mset_dom (map pure_mark marks.now) (pure_nodes numbers) (pure_dom member)) }
{
    let marks = Row::from_slice(alloc, marks)?;
    Boxed::new(alloc, NodeDom::MSet(marks, numbers, member))
}

/// Functions from a domain to another, with these attributes and their numbers. `NoMemory` where there is no room for it.
pub fn function_domain(
    alloc: Global,
    marks: &[Mark],
    numbers: Row<Node>,
    from: Boxed<NodeDom>,
    to: Boxed<NodeDom>,
) -> Result<Boxed<NodeDom>, NoMemory>
    ensures { IfOk result (λ d. pure_dom d
        ≡ function_dom (map pure_mark marks.now) (pure_nodes numbers) (pure_dom from) (pure_dom to)) }
{
    let marks = Row::from_slice(alloc, marks)?;
    Boxed::new(alloc, NodeDom::Function(marks, numbers, from, to))
}

/// Relations with components from these domains, with these attributes and their numbers. `NoMemory` where there is no room for it.
pub fn relation_domain(
    alloc: Global,
    marks: &[Mark],
    numbers: Row<Node>,
    parts: Row<NodeDom>,
) -> Result<Boxed<NodeDom>, NoMemory>
    ensures { IfOk result (λ d. pure_dom d ≡ relation_dom (map pure_mark marks.now) (pure_nodes numbers) (pure_doms parts)) }
{
    let marks = Row::from_slice(alloc, marks)?;
    Boxed::new(alloc, NodeDom::Relation(marks, numbers, parts))
}

/// Partitions of members of a domain, with these attributes and their numbers. `NoMemory` where there is no room for it.
pub fn partition_domain(
    alloc: Global,
    marks: &[Mark],
    numbers: Row<Node>,
    member: Boxed<NodeDom>,
) -> Result<Boxed<NodeDom>, NoMemory>
    ensures { IfOk result (λ d. pure_dom d ≡ partition_dom (map pure_mark marks.now) (pure_nodes numbers) (pure_dom member)) }
{
    let marks = Row::from_slice(alloc, marks)?;
    Boxed::new(alloc, NodeDom::Partition(marks, numbers, member))
}
