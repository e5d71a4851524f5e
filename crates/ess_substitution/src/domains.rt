//! Domains with an expression in the place of a name.
ghost use Rattle.std.specs.Prelude.{◌≡◌, IfOk, map};
ghost use Rattle.ess_semantics.specs.Substitution.{substitute_dom, substitute_doms, for_name};
ghost use Rattle.ess_core_nodes.specs.NodeViews.{pure_node, pure_dom, pure_doms};

use crate::expressions::substitute_nodes;
use ess_core_nodes::{Node, NodeDom, copy_texts};
use ess_rows::{Boxed, NoMemory, Row, Text};
use std::alloc::Global;

/// The domain with a value in the place of a name. `NoMemory` where there is no room for it.
#[cycle(substituted)]
pub fn substitute_dom(
    alloc: Global,
    dom: &NodeDom,
    name: &Text,
    value: &Node,
) -> Result<Boxed<NodeDom>, NoMemory>
    ensures { IfOk result (λ d. pure_dom d ≡ substitute_dom (for_name name.now (pure_node value.now)) (pure_dom dom.now)) }
{
    match dom {
        NodeDom::Bool => Boxed::new(alloc, NodeDom::Bool),
        NodeDom::Int(ends, bounds) => {
            let bounds = substitute_nodes(alloc, bounds.as_slice(), name, value)?;
            let ends = Row::from_slice(alloc, ends.as_slice())?;
            Boxed::new(alloc, NodeDom::Int(ends, bounds))
        }
        NodeDom::Name(used) => {
            let used = used.copy(alloc)?;
            Boxed::new(alloc, NodeDom::Name(used))
        }
        NodeDom::Tuple(doms) => {
            let doms = substitute_doms(alloc, doms.as_slice(), name, value)?;
            Boxed::new(alloc, NodeDom::Tuple(doms))
        }
        NodeDom::Record(fields, doms) => {
            let doms = substitute_doms(alloc, doms.as_slice(), name, value)?;
            let fields = copy_texts(alloc, fields.as_slice())?;
            Boxed::new(alloc, NodeDom::Record(fields, doms))
        }
        NodeDom::Matrix(axes, item) => {
            let axes = substitute_doms(alloc, axes.as_slice(), name, value)?;
            let item = substitute_dom(alloc, item.get(), name, value)?;
            Boxed::new(alloc, NodeDom::Matrix(axes, item))
        }
        NodeDom::Set(marks, numbers, member) => {
            let numbers = substitute_nodes(alloc, numbers.as_slice(), name, value)?;
            let marks = Row::from_slice(alloc, marks.as_slice())?;
            let member = substitute_dom(alloc, member.get(), name, value)?;
            Boxed::new(alloc, NodeDom::Set(marks, numbers, member))
        }
        NodeDom::MSet(marks, numbers, member) => {
            let numbers = substitute_nodes(alloc, numbers.as_slice(), name, value)?;
            let marks = Row::from_slice(alloc, marks.as_slice())?;
            let member = substitute_dom(alloc, member.get(), name, value)?;
            Boxed::new(alloc, NodeDom::MSet(marks, numbers, member))
        }
        NodeDom::Function(marks, numbers, from, to) => {
            let numbers = substitute_nodes(alloc, numbers.as_slice(), name, value)?;
            let marks = Row::from_slice(alloc, marks.as_slice())?;
            let from = substitute_dom(alloc, from.get(), name, value)?;
            let to = substitute_dom(alloc, to.get(), name, value)?;
            Boxed::new(alloc, NodeDom::Function(marks, numbers, from, to))
        }
        NodeDom::Relation(marks, numbers, parts) => {
            let numbers = substitute_nodes(alloc, numbers.as_slice(), name, value)?;
            let marks = Row::from_slice(alloc, marks.as_slice())?;
            let parts = substitute_doms(alloc, parts.as_slice(), name, value)?;
            Boxed::new(alloc, NodeDom::Relation(marks, numbers, parts))
        }
        NodeDom::Partition(marks, numbers, member) => {
            let numbers = substitute_nodes(alloc, numbers.as_slice(), name, value)?;
            let marks = Row::from_slice(alloc, marks.as_slice())?;
            let member = substitute_dom(alloc, member.get(), name, value)?;
            Boxed::new(alloc, NodeDom::Partition(marks, numbers, member))
        }
    }
}

/// The same of several domains.
#[cycle(substituted)]
#[tactic(auto, using(crate::proofs::Rows::substituted_doms))]
fn substitute_doms(
    alloc: Global,
    doms: &[NodeDom],
    name: &Text,
    value: &Node,
) -> Result<Row<NodeDom>, NoMemory>
    ensures { IfOk result (λ ds. pure_doms ds
        ≡ substitute_doms (for_name name.now (pure_node value.now)) (pure_doms doms.now)) }
{
    Ok(each_dom(alloc, doms, name, value)?)
}

/// The same of several domains, one by one.
#[cycle(substituted)]
fn each_dom(
    alloc: Global,
    doms: &[NodeDom],
    name: &Text,
    value: &Node,
) -> Result<Row<NodeDom>, NoMemory>
    ensures { IfOk result (λ ds. map pure_dom ds
        ≡ map (substitute_dom (for_name name.now (pure_node value.now))) (map pure_dom doms.now)) }
{
    let mut all = Row::with_capacity(alloc, doms.len())?;
    for dom in doms {
        let item = substitute_dom(alloc, dom, name, value)?;
        all.push(item.into_inner())?;
    }
    Ok(all)
}
