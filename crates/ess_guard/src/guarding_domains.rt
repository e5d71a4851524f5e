//! The recursion in domains: their numbers made total, with the conditions under which these have values.
ghost use Rattle.std.specs.Prelude.{◌≡◌, IfOk, map};
ghost use Rattle.ess_core_nodes.specs.NodeViews.{pure_node, pure_dom, pure_doms};
ghost use Rattle.ess_guard_laws.specs.Guard.{guarded_dom, guarded_doms, conditions_dom, conditions_doms};
ghost use Rattle.ess_guard_forms.specs.KnownNames.{pure_known};

use crate::domains::{
    function_of, int_of, matrix_of, mset_of, partition_of, record_of, relation_of, set_of, tuple_of,
};
use crate::guarding::guard_nodes;
use ess_core_nodes::{Node, NodeDom};
use ess_guard_conditions::Rules;
use ess_guard_forms::KnownName;
use ess_rows::{Boxed, NoMemory, Row};
use std::alloc::Global;

/// A domain made total, with its conditions. `NoMemory` where there is no room for them.
#[cycle(guard)]
pub(crate) fn guard_dom(
    alloc: Global,
    rules: &Rules,
    known: &[KnownName],
    dom: &NodeDom,
) -> Result<(Boxed<NodeDom>, Row<Node>), NoMemory>
    ensures dom { IfOk result (λ r. pure_dom r.0
        ≡ guarded_dom rules.now.natural rules.now.first rules.now.second (pure_known known.now) (pure_dom dom.now)) }
    ensures asked { IfOk result (λ r. map pure_node r.1
        ≡ conditions_dom rules.now.natural rules.now.first rules.now.second (pure_known known.now) (pure_dom dom.now)) }
{
    match dom {
        NodeDom::Bool | NodeDom::Name(_) => Ok((dom.copy(alloc)?, Row::new(alloc))),
        NodeDom::Int(ends, bounds) => {
            let bounds = guard_nodes(alloc, rules, known, false, bounds.as_slice())?;
            int_of(alloc, ends, bounds)
        }
        NodeDom::Tuple(doms) => {
            let doms = guard_doms(alloc, rules, known, doms.as_slice())?;
            tuple_of(alloc, doms)
        }
        NodeDom::Record(names, doms) => {
            let doms = guard_doms(alloc, rules, known, doms.as_slice())?;
            record_of(alloc, names, doms)
        }
        NodeDom::Matrix(axes, item) => {
            let axes = guard_doms(alloc, rules, known, axes.as_slice())?;
            let item = guard_dom(alloc, rules, known, item.get())?;
            matrix_of(alloc, axes, item)
        }
        NodeDom::Set(marks, numbers, member) => {
            let numbers = guard_nodes(alloc, rules, known, false, numbers.as_slice())?;
            let member = guard_dom(alloc, rules, known, member.get())?;
            set_of(alloc, marks, numbers, member)
        }
        NodeDom::MSet(marks, numbers, member) => {
            let numbers = guard_nodes(alloc, rules, known, false, numbers.as_slice())?;
            let member = guard_dom(alloc, rules, known, member.get())?;
            mset_of(alloc, marks, numbers, member)
        }
        NodeDom::Function(marks, numbers, from, to) => {
            let numbers = guard_nodes(alloc, rules, known, false, numbers.as_slice())?;
            let from = guard_dom(alloc, rules, known, from.get())?;
            let to = guard_dom(alloc, rules, known, to.get())?;
            function_of(alloc, marks, numbers, from, to)
        }
        NodeDom::Relation(marks, numbers, parts) => {
            let numbers = guard_nodes(alloc, rules, known, false, numbers.as_slice())?;
            let parts = guard_doms(alloc, rules, known, parts.as_slice())?;
            relation_of(alloc, marks, numbers, parts)
        }
        NodeDom::Partition(marks, numbers, member) => {
            let numbers = guard_nodes(alloc, rules, known, false, numbers.as_slice())?;
            let member = guard_dom(alloc, rules, known, member.get())?;
            partition_of(alloc, marks, numbers, member)
        }
    }
}

/// The same of several domains, with their conditions one behind the other.
#[cycle(guard)]
fn guard_doms(
    alloc: Global,
    rules: &Rules,
    known: &[KnownName],
    doms: &[NodeDom],
) -> Result<(Row<NodeDom>, Row<Node>), NoMemory>
    ensures doms { IfOk result (λ r. pure_doms r.0
        ≡ guarded_doms rules.now.natural rules.now.first rules.now.second (pure_known known.now) (pure_doms doms.now)) }
    ensures asked { IfOk result (λ r. map pure_node r.1
        ≡ conditions_doms rules.now.natural rules.now.first rules.now.second (pure_known known.now) (pure_doms doms.now)) }
{
    let mut parts = Row::with_capacity(alloc, doms.len())?;
    let mut conditions = Row::new(alloc);
    for dom in doms {
        let (part, mut asked) = guard_dom(alloc, rules, known, dom)?;
        parts.push(part.into_inner())?;
        conditions.append(&mut asked)?;
    }
    Ok((parts, conditions))
}
