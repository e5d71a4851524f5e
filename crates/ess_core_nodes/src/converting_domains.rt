//! Domains of the tool's trees as those of nodes.
ghost use Rattle.std.specs.Prelude.{◌≡◌, ◌++◌, [], ◌∷◌, IfOk, OnOk, map};
ghost use Rattle.ess_semantics.specs.Names.{keys};
ghost use Rattle.ess_core.specs.TreeViews.{pure_dom as pure_code_dom, pure_range, pure_attr, pure_field_dom, field_values, no_bound};
ghost use Rattle.ess_core_nodes.specs.NodeViews.{pure_node, pure_dom, pure_ends, pure_mark};
ghost use Rattle.ess_core_nodes.specs.Split.{forms_of, bounds_of, marks_of, numbers_of};

use crate::converting::node_of;
use crate::nodes::{Node, NodeDom, Seen};
use crate::words::{Ends, Mark};
use ess_core::{Attr, Dom, FieldDom, Range, Repr, ReprKind};
use ess_rows::{Boxed, NoMemory, Row, Text};
use std::alloc::Global;

/// The domain of nodes of a domain. `NoMemory` where there is no room for it.
#[cycle(convert)]
pub fn dom_of(alloc: Global, dom: &Dom) -> Result<Boxed<NodeDom>, NoMemory>
    ensures { IfOk result (λ d. pure_dom d ≡ pure_code_dom dom.now) }
{
    match dom {
        Dom::Bool => Boxed::new(alloc, NodeDom::Bool),
        Dom::Int(ranges) => {
            let (ends, bounds) = ranges_of(alloc, ranges.as_slice())?;
            Boxed::new(alloc, NodeDom::Int(ends, bounds))
        }
        Dom::Name(name) => {
            let name = name.copy(alloc)?;
            Boxed::new(alloc, NodeDom::Name(name))
        }
        Dom::Tuple(doms) => {
            let doms = doms_of(alloc, doms.as_slice())?;
            Boxed::new(alloc, NodeDom::Tuple(doms))
        }
        Dom::Rec(fields) => {
            let doms = field_doms(alloc, fields.as_slice())?;
            let names = field_names(alloc, fields.as_slice())?;
            Boxed::new(alloc, NodeDom::Record(names, doms))
        }
        Dom::Matrix(axes, item) => {
            let axes = doms_of(alloc, axes.as_slice())?;
            let item = dom_of(alloc, item.get())?;
            Boxed::new(alloc, NodeDom::Matrix(axes, item))
        }
        Dom::Set(attrs, member) => {
            let (marks, numbers) = attrs_of(alloc, attrs.as_slice())?;
            let member = dom_of(alloc, member.get())?;
            Boxed::new(alloc, NodeDom::Set(marks, numbers, member))
        }
        Dom::MSet(attrs, member) => {
            let (marks, numbers) = attrs_of(alloc, attrs.as_slice())?;
            let member = dom_of(alloc, member.get())?;
            Boxed::new(alloc, NodeDom::MSet(marks, numbers, member))
        }
        Dom::Function(attrs, from, to) => {
            let (marks, numbers) = attrs_of(alloc, attrs.as_slice())?;
            let from = dom_of(alloc, from.get())?;
            let to = dom_of(alloc, to.get())?;
            Boxed::new(alloc, NodeDom::Function(marks, numbers, from, to))
        }
        Dom::Relation(attrs, parts) => {
            let (marks, numbers) = attrs_of(alloc, attrs.as_slice())?;
            let parts = doms_of(alloc, parts.as_slice())?;
            Boxed::new(alloc, NodeDom::Relation(marks, numbers, parts))
        }
        Dom::Partition(attrs, member) => {
            let (marks, numbers) = attrs_of(alloc, attrs.as_slice())?;
            let member = dom_of(alloc, member.get())?;
            Boxed::new(alloc, NodeDom::Partition(marks, numbers, member))
        }
    }
}

/// Several domains.
#[cycle(convert)]
fn doms_of(alloc: Global, doms: &[Dom]) -> Result<Row<NodeDom>, NoMemory>
    ensures { IfOk result (λ ds. map pure_dom ds ≡ map pure_code_dom doms.now) }
{
    let mut converted = Row::with_capacity(alloc, doms.len())?;
    for dom in doms {
        let item = dom_of(alloc, dom)?;
        converted.push(item.into_inner())?;
    }
    Ok(converted)
}

/// The domains of fields.
#[cycle(convert)]
#[tactic(auto, using(ess_core::proofs::PartEquations::pure_field_dom_is))]
fn field_doms(alloc: Global, fields: &[FieldDom]) -> Result<Row<NodeDom>, NoMemory>
    ensures { IfOk result (λ ds. map pure_dom ds ≡ field_values (map pure_field_dom fields.now)) }
{
    let mut doms = Row::with_capacity(alloc, fields.len())?;
    for field in fields {
        let dom = dom_of(alloc, &field.dom)?;
        doms.push(dom.into_inner())?;
    }
    Ok(doms)
}

/// The names of fields.
#[tactic(auto, using(ess_core::proofs::PartEquations::pure_field_dom_is))]
fn field_names(alloc: Global, fields: &[FieldDom]) -> Result<Row<Text>, NoMemory>
    ensures { IfOk result (λ ns. ns ≡ keys (map pure_field_dom fields.now)) }
{
    let mut names = Row::with_capacity(alloc, fields.len())?;
    for field in fields {
        let name = field.name.copy(alloc)?;
        names.push(name)?;
    }
    Ok(names)
}

/// The forms of ranges, and their bounds.
#[cycle(convert)]
fn ranges_of(alloc: Global, ranges: &[Range]) -> Result<(Row<Ends>, Row<Node>), NoMemory>
    ensures forms { IfOk result (λ r. map pure_ends r.0 ≡ forms_of ranges.now) }
    ensures bounds { IfOk result (λ r. map pure_node r.1 ≡ bounds_of ranges.now) }
{
    let mut ends = Row::with_capacity(alloc, ranges.len())?;
    let mut bounds = Row::new(alloc);
    for range in ranges {
        add_range(alloc, range, &mut ends, &mut bounds)?;
    }
    Ok((ends, bounds))
}

/// Puts a range and its bounds behind others.
#[cycle(convert)]
#[tactic(auto, using(ess_core::proofs::PartEquations::pure_range_one, ess_core::proofs::PartEquations::pure_range_span))]
fn add_range(
    alloc: Global,
    range: &Range,
    ends: &mut Row<Ends>,
    bounds: &mut Row<Node>,
) -> Result<(), NoMemory>
    ensures forms { OnOk result (map pure_ends ends.new ≡ map pure_ends ends.old ++ (pure_range range.now).0 ∷ []) }
    ensures bounds { OnOk result (map pure_node bounds.new ≡ map pure_node bounds.old ++ (pure_range range.now).1) }
{
    match range {
        Range::One(ex) => {
            bounds.push(node_of(alloc, ex)?.into_inner())?;
            ends.push(Ends::One)
        }
        Range::Span(None, None) => {
            bounds.push(no_bound(alloc)?.into_inner())?;
            bounds.push(no_bound(alloc)?.into_inner())?;
            ends.push(Ends::Both)
        }
        Range::Span(Some(low), None) => {
            bounds.push(node_of(alloc, low)?.into_inner())?;
            ends.push(Ends::Low)
        }
        Range::Span(None, Some(high)) => {
            bounds.push(node_of(alloc, high)?.into_inner())?;
            ends.push(Ends::High)
        }
        Range::Span(Some(low), Some(high)) => {
            bounds.push(node_of(alloc, low)?.into_inner())?;
            bounds.push(node_of(alloc, high)?.into_inner())?;
            ends.push(Ends::Both)
        }
    }
}

/// What stands for a bound that is missing where both are: it has no meaning.
#[tactic(auto, unfolding(ess_core::specs::TreeViews::no_bound))]
fn no_bound(alloc: Global) -> Result<Boxed<Node>, NoMemory>
    ensures { IfOk result (λ n. pure_node n ≡ no_bound) }
{
    let mut ends = Row::new(alloc);
    ends.push(Ends::Both)?;
    let dom = Boxed::new(alloc, NodeDom::Int(ends, Row::new(alloc)))?;
    let repr = Repr {
        kind: ReprKind::Atom,
        children: Row::new(alloc),
    };
    let seen = Boxed::new(
        alloc,
        Seen {
            repr,
            dom,
            cells: Row::new(alloc),
            at: Row::new(alloc),
        },
    )?;
    Boxed::new(alloc, Node::Seen(seen))
}

/// The attributes without their numbers, and the numbers.
#[cycle(convert)]
fn attrs_of(alloc: Global, attrs: &[Attr]) -> Result<(Row<Mark>, Row<Node>), NoMemory>
    ensures marks { IfOk result (λ r. map pure_mark r.0 ≡ marks_of attrs.now) }
    ensures numbers { IfOk result (λ r. map pure_node r.1 ≡ numbers_of attrs.now) }
{
    let mut marks = Row::with_capacity(alloc, attrs.len())?;
    let mut numbers = Row::new(alloc);
    for attr in attrs {
        add_attr(alloc, attr, &mut marks, &mut numbers)?;
    }
    Ok((marks, numbers))
}

/// Puts an attribute and its number behind others.
#[cycle(convert)]
#[tactic(auto, using(ess_core::proofs::PartEquations::pure_attr_is))]
fn add_attr(
    alloc: Global,
    attr: &Attr,
    marks: &mut Row<Mark>,
    numbers: &mut Row<Node>,
) -> Result<(), NoMemory>
    ensures marks { OnOk result (map pure_mark marks.new ≡ map pure_mark marks.old ++ (pure_attr attr.now).0 ∷ []) }
    ensures numbers { OnOk result (map pure_node numbers.new ≡ map pure_node numbers.old ++ (pure_attr attr.now).1) }
{
    match &attr.value {
        None => marks.push(Mark::Flag(attr.key)),
        Some(ex) => {
            numbers.push(node_of(alloc, ex)?.into_inner())?;
            marks.push(Mark::Valued(attr.key))
        }
    }
}
