//! One pass over the bounds in domains.
ghost use Rattle.std.specs.Prelude.{IfOk, OnOk};
ghost use Rattle.ess_core_nodes.specs.NodeViews.{pure_dom, pure_doms};
ghost use Rattle.ess_node_types.specs.TypedNames.{pure_names};
ghost use Rattle.ess_refine.specs.Passes.{DomPasses, DomsPass};

use crate::passing::{Turns, pass_all};
use ess_core_nodes::NodeDom;
use ess_node_types::NameTypes;
use ess_rows::{Boxed, NoMemory, Row};
use std::alloc::Global;
use std::mem;

/// A domain whose bounds are rewritten: those of atoms, also in tuples, records and matrices. The others are those of compound values.
#[cycle(pass)]
fn pass_dom(
    alloc: Global,
    dom: NodeDom,
    names: &NameTypes,
    turns: &mut Turns,
) -> Result<NodeDom, NoMemory>
    ensures { IfOk result (λ d. DomPasses turns.old (pure_names names.now) (pure_dom dom) (pure_dom d) turns.new) }
{
    match dom {
        NodeDom::Int(ends, mut bounds) => {
            pass_all(alloc, &mut bounds, names, turns)?;
            Ok(NodeDom::Int(ends, bounds))
        }
        NodeDom::Tuple(mut doms) => {
            pass_doms(alloc, &mut doms, names, turns)?;
            Ok(NodeDom::Tuple(doms))
        }
        NodeDom::Record(fields, mut doms) => {
            pass_doms(alloc, &mut doms, names, turns)?;
            Ok(NodeDom::Record(fields, doms))
        }
        NodeDom::Matrix(mut axes, mut item) => {
            pass_doms(alloc, &mut axes, names, turns)?;
            pass_boxed_dom(alloc, &mut item, names, turns)?;
            Ok(NodeDom::Matrix(axes, item))
        }
        NodeDom::Bool => Ok(NodeDom::Bool),
        NodeDom::Name(name) => Ok(NodeDom::Name(name)),
        compound => pass_compound(alloc, compound, names, turns),
    }
}

/// The same of a domain of compound values, with its attributes, where these are gone through. No generator of a refined tree runs over
/// one.
#[cycle(pass)]
fn pass_compound(
    alloc: Global,
    dom: NodeDom,
    names: &NameTypes,
    turns: &mut Turns,
) -> Result<NodeDom, NoMemory>
    ensures { IfOk result (λ d. DomPasses turns.old (pure_names names.now) (pure_dom dom) (pure_dom d) turns.new) }
{
    if !turns.everywhere {
        return Ok(dom);
    }
    match dom {
        NodeDom::Set(marks, mut numbers, mut member) => {
            pass_all(alloc, &mut numbers, names, turns)?;
            pass_boxed_dom(alloc, &mut member, names, turns)?;
            Ok(NodeDom::Set(marks, numbers, member))
        }
        NodeDom::MSet(marks, mut numbers, mut member) => {
            pass_all(alloc, &mut numbers, names, turns)?;
            pass_boxed_dom(alloc, &mut member, names, turns)?;
            Ok(NodeDom::MSet(marks, numbers, member))
        }
        NodeDom::Function(marks, mut numbers, mut from, mut to) => {
            pass_all(alloc, &mut numbers, names, turns)?;
            pass_boxed_dom(alloc, &mut from, names, turns)?;
            pass_boxed_dom(alloc, &mut to, names, turns)?;
            Ok(NodeDom::Function(marks, numbers, from, to))
        }
        NodeDom::Relation(marks, mut numbers, mut parts) => {
            pass_all(alloc, &mut numbers, names, turns)?;
            pass_doms(alloc, &mut parts, names, turns)?;
            Ok(NodeDom::Relation(marks, numbers, parts))
        }
        NodeDom::Partition(marks, mut numbers, mut member) => {
            pass_all(alloc, &mut numbers, names, turns)?;
            pass_boxed_dom(alloc, &mut member, names, turns)?;
            Ok(NodeDom::Partition(marks, numbers, member))
        }
        other => Ok(other),
    }
}

/// The same in a box, in place. The domain is any where there is no memory.
#[cycle(pass)]
pub(crate) fn pass_boxed_dom(
    alloc: Global,
    dom: &mut Boxed<NodeDom>,
    names: &NameTypes,
    turns: &mut Turns,
) -> Result<(), NoMemory>
    ensures { OnOk result (DomPasses turns.old (pure_names names.now) (pure_dom dom.old) (pure_dom dom.new) turns.new) }
{
    let old = dom.replace(NodeDom::Bool);
    let new = pass_dom(alloc, old, names, turns)?;
    drop(dom.replace(new));
    Ok(())
}

/// The same of several domains.
#[cycle(pass)]
fn pass_doms(
    alloc: Global,
    doms: &mut Row<NodeDom>,
    names: &NameTypes,
    turns: &mut Turns,
) -> Result<(), NoMemory>
    ensures { OnOk result (DomsPass turns.old (pure_names names.now) (pure_doms doms.old) (pure_doms doms.new) turns.new) }
{
    for i in 0..doms.len() {
        if let Some(dom) = doms.get_mut(i) {
            let old = mem::replace(dom, NodeDom::Bool);
            let new = pass_dom(alloc, old, names, turns)?;
            drop(mem::replace(dom, new));
        }
    }
    Ok(())
}
