//! Domains over tables: what stands in the place of names is put in.
ghost use Rattle.std.specs.Prelude.{◌≡◌, IfOk};
ghost use Rattle.ess_repr_laws.specs.StructureParts.{upto};
ghost use Rattle.ess_core_nodes.specs.NodeViews.{pure_node, pure_dom, pure_doms};
ghost use Rattle.conjure_model_laws.specs.Shown.{shown_dom, shown_doms, range_of_type};
ghost use Rattle.ess_model_shown.specs.Tables.{pure_names, pure_shows};

use crate::showing::shown_all;
use crate::shows::{NodeNames, Shows};
use ess_core_nodes::{Ends, Node, NodeDom};
use ess_node_remaking::{
    function_domain, int_domain, matrix_domain, mset_domain, named_domain, partition_domain,
    record_domain, relation_domain, set_domain, tuple_domain,
};
use ess_rows::{Boxed, NoMemory, Row, Text};
use std::alloc::Global;

/// The domain over tables: in the place of a named type comes the range of its positions. `NoMemory` where there is no room for it.
#[cycle(shown)]
pub fn shown_dom(alloc: Global, shows: &Shows, dom: &NodeDom) -> Result<Boxed<NodeDom>, NoMemory>
    ensures { IfOk result (λ d. pure_dom d ≡ shown_dom (pure_shows shows.now) (pure_dom dom.now)) }
{
    match dom {
        NodeDom::Bool => Boxed::new(alloc, NodeDom::Bool),
        NodeDom::Int(ends, bounds) => {
            let bounds = shown_all(alloc, shows, bounds.as_slice())?;
            int_domain(alloc, ends.as_slice(), bounds)
        }
        NodeDom::Name(name) => range_of_type(alloc, &shows.sizes, name),
        NodeDom::Tuple(doms) => {
            let doms = shown_doms(alloc, shows, doms.as_slice())?;
            tuple_domain(alloc, doms)
        }
        NodeDom::Record(names, doms) => {
            let doms = shown_doms(alloc, shows, doms.as_slice())?;
            record_domain(alloc, names.as_slice(), doms)
        }
        NodeDom::Matrix(axes, item) => {
            let axes = shown_doms(alloc, shows, axes.as_slice())?;
            let item = shown_dom(alloc, shows, item.get())?;
            matrix_domain(alloc, axes, item)
        }
        NodeDom::Set(marks, numbers, member) => {
            let numbers = shown_all(alloc, shows, numbers.as_slice())?;
            let member = shown_dom(alloc, shows, member.get())?;
            set_domain(alloc, marks.as_slice(), numbers, member)
        }
        NodeDom::MSet(marks, numbers, member) => {
            let numbers = shown_all(alloc, shows, numbers.as_slice())?;
            let member = shown_dom(alloc, shows, member.get())?;
            mset_domain(alloc, marks.as_slice(), numbers, member)
        }
        NodeDom::Function(marks, numbers, from, to) => {
            let numbers = shown_all(alloc, shows, numbers.as_slice())?;
            let from = shown_dom(alloc, shows, from.get())?;
            let to = shown_dom(alloc, shows, to.get())?;
            function_domain(alloc, marks.as_slice(), numbers, from, to)
        }
        NodeDom::Relation(marks, numbers, parts) => {
            let numbers = shown_all(alloc, shows, numbers.as_slice())?;
            let parts = shown_doms(alloc, shows, parts.as_slice())?;
            relation_domain(alloc, marks.as_slice(), numbers, parts)
        }
        NodeDom::Partition(marks, numbers, member) => {
            let numbers = shown_all(alloc, shows, numbers.as_slice())?;
            let member = shown_dom(alloc, shows, member.get())?;
            partition_domain(alloc, marks.as_slice(), numbers, member)
        }
    }
}

/// The same of several domains.
#[cycle(shown)]
fn shown_doms(alloc: Global, shows: &Shows, doms: &[NodeDom]) -> Result<Row<NodeDom>, NoMemory>
    ensures { IfOk result (λ ds. pure_doms ds ≡ shown_doms (pure_shows shows.now) (pure_doms doms.now)) }
{
    let mut all = Row::with_capacity(alloc, doms.len())?;
    for dom in doms {
        let item = shown_dom(alloc, shows, dom)?;
        all.push(item.into_inner())?;
    }
    Ok(all)
}

/// The positions of a named type, else its name.
fn range_of_type(alloc: Global, sizes: &NodeNames, name: &Text) -> Result<Boxed<NodeDom>, NoMemory>
    ensures { IfOk result (λ d. pure_dom d ≡ range_of_type (pure_names sizes.now) name.now) }
{
    match sizes.look(name) {
        Some(size) => {
            let size = size.copy(alloc)?;
            upto(alloc, size)
        }
        None => named_domain(alloc, name),
    }
}

/// The numbers from 1 to this one.
fn upto(alloc: Global, last: Boxed<Node>) -> Result<Boxed<NodeDom>, NoMemory>
    ensures { IfOk result (λ d. pure_dom d ≡ upto (pure_node last)) }
{
    let mut bounds = Row::new(alloc);
    bounds.push(Node::Number(1))?;
    bounds.push(last.into_inner())?;
    let mut ends = Row::new(alloc);
    ends.push(Ends::Both)?;
    Boxed::new(alloc, NodeDom::Int(ends, bounds))
}
