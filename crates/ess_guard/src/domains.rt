//! Domains with their conditions, from their parts made total with theirs.
ghost use Rattle.std.specs.Prelude.{◌≡◌, ◌++◌, IfOk, map};
ghost use Rattle.ess_semantics.specs.Trees.{int_dom, tuple_dom, record_dom, matrix_dom, set_dom, mset_dom, function_dom, relation_dom};
ghost use Rattle.ess_semantics.specs.Trees.{partition_dom};
ghost use Rattle.ess_core_nodes.specs.NodeViews.{pure_node, pure_nodes, pure_dom, pure_doms, pure_ends, pure_mark};

use ess_core_nodes::{Ends, Mark, Node, NodeDom, copy_texts};
use ess_node_building::joined;
use ess_rows::{Boxed, NoMemory, Row, Text};
use std::alloc::Global;

/// A domain of numbers with ranges of these forms, whose bounds come with their conditions.
pub(crate) fn int_of(
    alloc: Global,
    ends: &Row<Ends>,
    bounds: (Row<Node>, Row<Node>),
) -> Result<(Boxed<NodeDom>, Row<Node>), NoMemory>
    ensures dom { IfOk result (λ r. pure_dom r.0
        ≡ int_dom (map pure_ends ends.now) (pure_nodes bounds.0)) }
    ensures asked { IfOk result (λ r. map pure_node r.1
        ≡ map pure_node bounds.1) }
{
    let (bounds, asked) = bounds;
    let ends = Row::from_slice(alloc, ends.as_slice())?;
    let dom = Boxed::new(alloc, NodeDom::Int(ends, bounds))?;
    Ok((dom, asked))
}

/// A domain of tuples.
pub(crate) fn tuple_of(
    alloc: Global,
    doms: (Row<NodeDom>, Row<Node>),
) -> Result<(Boxed<NodeDom>, Row<Node>), NoMemory>
    ensures dom { IfOk result (λ r. pure_dom r.0
        ≡ tuple_dom (pure_doms doms.0)) }
    ensures asked { IfOk result (λ r. map pure_node r.1
        ≡ map pure_node doms.1) }
{
    let (doms, asked) = doms;
    let dom = Boxed::new(alloc, NodeDom::Tuple(doms))?;
    Ok((dom, asked))
}

/// A domain of records with these fields.
pub(crate) fn record_of(
    alloc: Global,
    names: &Row<Text>,
    doms: (Row<NodeDom>, Row<Node>),
) -> Result<(Boxed<NodeDom>, Row<Node>), NoMemory>
    ensures dom { IfOk result (λ r. pure_dom r.0
        ≡ record_dom names.now (pure_doms doms.0)) }
    ensures asked { IfOk result (λ r. map pure_node r.1
        ≡ map pure_node doms.1) }
{
    let (doms, asked) = doms;
    let names = copy_texts(alloc, names.as_slice())?;
    let dom = Boxed::new(alloc, NodeDom::Record(names, doms))?;
    Ok((dom, asked))
}

/// A domain of matrices.
pub(crate) fn matrix_of(
    alloc: Global,
    axes: (Row<NodeDom>, Row<Node>),
    item: (Boxed<NodeDom>, Row<Node>),
) -> Result<(Boxed<NodeDom>, Row<Node>), NoMemory>
    ensures dom { IfOk result (λ r. pure_dom r.0
        ≡ matrix_dom (pure_doms axes.0) (pure_dom item.0)) }
    ensures asked { IfOk result (λ r. map pure_node r.1
        ≡ map pure_node axes.1 ++ map pure_node item.1) }
{
    let (axes, asked) = axes;
    let (item, behind) = item;
    let asked = joined(asked, behind)?;
    let dom = Boxed::new(alloc, NodeDom::Matrix(axes, item))?;
    Ok((dom, asked))
}

/// A domain of sets with these attributes.
pub(crate) fn set_of(
    alloc: Global,
    marks: &Row<Mark>,
    numbers: (Row<Node>, Row<Node>),
    member: (Boxed<NodeDom>, Row<Node>),
) -> Result<(Boxed<NodeDom>, Row<Node>), NoMemory>
    ensures dom { IfOk result (λ r. pure_dom r.0
        ≡ set_dom (map pure_mark marks.now) (pure_nodes numbers.0) (pure_dom member.0)) }
    ensures asked { IfOk result (λ r. map pure_node r.1
        ≡ map pure_node numbers.1 ++ map pure_node member.1) }
{
    let (numbers, asked) = numbers;
    let (member, behind) = member;
    let asked = joined(asked, behind)?;
    let marks = Row::from_slice(alloc, marks.as_slice())?;
    let dom = Boxed::new(alloc, NodeDom::Set(marks, numbers, member))?;
    Ok((dom, asked))
}

/// A domain of multisets with these attributes.
pub(crate) fn mset_of(
    alloc: Global,
    marks: &Row<Mark>,
    numbers: (Row<Node>, Row<Node>),
    member: (Boxed<NodeDom>, Row<Node>),
) -> Result<(Boxed<NodeDom>, Row<Node>), NoMemory>
    ensures dom { IfOk result (λ r. pure_dom r.0
        ≡ mset_dom (map pure_mark marks.now) (pure_nodes numbers.0) (pure_dom member.0)) }
    ensures asked { IfOk result (λ r. map pure_node r.1
        ≡ map pure_node numbers.1 ++ map pure_node member.1) }
{
    let (numbers, asked) = numbers;
    let (member, behind) = member;
    let asked = joined(asked, behind)?;
    let marks = Row::from_slice(alloc, marks.as_slice())?;
    let dom = Boxed::new(alloc, NodeDom::MSet(marks, numbers, member))?;
    Ok((dom, asked))
}

/// A domain of partitions with these attributes.
pub(crate) fn partition_of(
    alloc: Global,
    marks: &Row<Mark>,
    numbers: (Row<Node>, Row<Node>),
    member: (Boxed<NodeDom>, Row<Node>),
) -> Result<(Boxed<NodeDom>, Row<Node>), NoMemory>
    ensures dom { IfOk result (λ r. pure_dom r.0
        ≡ partition_dom (map pure_mark marks.now) (pure_nodes numbers.0) (pure_dom member.0)) }
    ensures asked { IfOk result (λ r. map pure_node r.1
        ≡ map pure_node numbers.1 ++ map pure_node member.1) }
{
    let (numbers, asked) = numbers;
    let (member, behind) = member;
    let asked = joined(asked, behind)?;
    let marks = Row::from_slice(alloc, marks.as_slice())?;
    let dom = Boxed::new(alloc, NodeDom::Partition(marks, numbers, member))?;
    Ok((dom, asked))
}

/// A domain of functions with these attributes.
pub(crate) fn function_of(
    alloc: Global,
    marks: &Row<Mark>,
    numbers: (Row<Node>, Row<Node>),
    from: (Boxed<NodeDom>, Row<Node>),
    to: (Boxed<NodeDom>, Row<Node>),
) -> Result<(Boxed<NodeDom>, Row<Node>), NoMemory>
    ensures dom { IfOk result (λ r. pure_dom r.0
        ≡ function_dom (map pure_mark marks.now) (pure_nodes numbers.0) (pure_dom from.0) (pure_dom to.0)) }
    ensures asked { IfOk result (λ r. map pure_node r.1
        ≡ map pure_node numbers.1 ++ (map pure_node from.1 ++ map pure_node to.1)) }
{
    let (numbers, asked) = numbers;
    let (from, first) = from;
    let (to, second) = to;
    let behind = joined(first, second)?;
    let asked = joined(asked, behind)?;
    let marks = Row::from_slice(alloc, marks.as_slice())?;
    let dom = Boxed::new(alloc, NodeDom::Function(marks, numbers, from, to))?;
    Ok((dom, asked))
}

/// A domain of relations with these attributes.
pub(crate) fn relation_of(
    alloc: Global,
    marks: &Row<Mark>,
    numbers: (Row<Node>, Row<Node>),
    parts: (Row<NodeDom>, Row<Node>),
) -> Result<(Boxed<NodeDom>, Row<Node>), NoMemory>
    ensures dom { IfOk result (λ r. pure_dom r.0
        ≡ relation_dom (map pure_mark marks.now) (pure_nodes numbers.0) (pure_doms parts.0)) }
    ensures asked { IfOk result (λ r. map pure_node r.1
        ≡ map pure_node numbers.1 ++ map pure_node parts.1) }
{
    let (numbers, asked) = numbers;
    let (parts, behind) = parts;
    let asked = joined(asked, behind)?;
    let marks = Row::from_slice(alloc, marks.as_slice())?;
    let dom = Boxed::new(alloc, NodeDom::Relation(marks, numbers, parts))?;
    Ok((dom, asked))
}
