//! Bound names of domains told apart.
ghost use Rattle.std.specs.Prelude.{◌≡◌, [], IfOk, OnOk, map};
ghost use Rattle.ess_core_nodes.specs.NodeViews.{pure_dom, pure_doms};
ghost use Rattle.conjure_model_laws.specs.ToldApart.{told_dom, told_doms};
ghost use Rattle.ess_model_names.specs.Renames.{pure_scope};

use crate::scopes::Renamed;
use crate::telling::told_all;
use ess_core_nodes::NodeDom;
use ess_node_remaking::{
    function_domain, int_domain, matrix_domain, mset_domain, named_domain, partition_domain,
    record_domain, relation_domain, set_domain, tuple_domain,
};
use ess_rows::{Boxed, NoMemory, Row};
use std::alloc::Global;

/// The domain with its bound names told apart, by the reserved names from `next` on. The number of the one behind them is left
/// there. `NoMemory` where there is no room for it, or the reserved names can't be counted; the number is then any.
pub fn told_dom_from(
    alloc: Global,
    dom: &NodeDom,
    next: &mut u64,
) -> Result<Boxed<NodeDom>, NoMemory>
    ensures tree { IfOk result (λ d. pure_dom d ≡ (told_dom (pure_dom dom.now) [] next.old).0) }
    ensures next { OnOk result (next.new ≡ (told_dom (pure_dom dom.now) [] next.old).1) }
{
    let mut scope = Row::new(alloc);
    told_dom(alloc, dom, &mut scope, next)
}

/// The domain with the next reserved names in the place of its bound names, where the names of the scope have become others.
#[cycle(told)]
pub(crate) fn told_dom(
    alloc: Global,
    dom: &NodeDom,
    scope: &mut Row<Renamed>,
    next: &mut u64,
) -> Result<Boxed<NodeDom>, NoMemory>
    ensures tree { IfOk result (λ d. pure_dom d ≡ (told_dom (pure_dom dom.now) (pure_scope scope.old) next.old).0) }
    ensures next { OnOk result (next.new ≡ (told_dom (pure_dom dom.now) (pure_scope scope.old) next.old).1) }
    ensures kept { OnOk result (scope.new ≡ scope.old) }
{
    match dom {
        NodeDom::Bool => Boxed::new(alloc, NodeDom::Bool),
        NodeDom::Int(ends, bounds) => {
            let bounds = told_all(alloc, bounds.as_slice(), scope, next)?;
            int_domain(alloc, ends.as_slice(), bounds)
        }
        NodeDom::Name(name) => named_domain(alloc, name),
        NodeDom::Tuple(doms) => {
            let doms = told_doms(alloc, doms.as_slice(), scope, next)?;
            tuple_domain(alloc, doms)
        }
        NodeDom::Record(names, doms) => {
            let doms = told_doms(alloc, doms.as_slice(), scope, next)?;
            record_domain(alloc, names.as_slice(), doms)
        }
        NodeDom::Matrix(axes, item) => {
            let axes = told_doms(alloc, axes.as_slice(), scope, next)?;
            let item = told_dom(alloc, item.get(), scope, next)?;
            matrix_domain(alloc, axes, item)
        }
        NodeDom::Set(marks, numbers, member) => {
            let numbers = told_all(alloc, numbers.as_slice(), scope, next)?;
            let member = told_dom(alloc, member.get(), scope, next)?;
            set_domain(alloc, marks.as_slice(), numbers, member)
        }
        NodeDom::MSet(marks, numbers, member) => {
            let numbers = told_all(alloc, numbers.as_slice(), scope, next)?;
            let member = told_dom(alloc, member.get(), scope, next)?;
            mset_domain(alloc, marks.as_slice(), numbers, member)
        }
        NodeDom::Function(marks, numbers, from, to) => {
            let numbers = told_all(alloc, numbers.as_slice(), scope, next)?;
            let from = told_dom(alloc, from.get(), scope, next)?;
            let to = told_dom(alloc, to.get(), scope, next)?;
            function_domain(alloc, marks.as_slice(), numbers, from, to)
        }
        NodeDom::Relation(marks, numbers, parts) => {
            let numbers = told_all(alloc, numbers.as_slice(), scope, next)?;
            let parts = told_doms(alloc, parts.as_slice(), scope, next)?;
            relation_domain(alloc, marks.as_slice(), numbers, parts)
        }
        NodeDom::Partition(marks, numbers, member) => {
            let numbers = told_all(alloc, numbers.as_slice(), scope, next)?;
            let member = told_dom(alloc, member.get(), scope, next)?;
            partition_domain(alloc, marks.as_slice(), numbers, member)
        }
    }
}

/// The same of several domains.
#[cycle(told)]
fn told_doms(
    alloc: Global,
    doms: &[NodeDom],
    scope: &mut Row<Renamed>,
    next: &mut u64,
) -> Result<Row<NodeDom>, NoMemory>
    ensures tree { IfOk result (λ ds. pure_doms ds ≡ (told_doms (pure_doms doms.now) (pure_scope scope.old) next.old).0) }
    ensures next { OnOk result (next.new ≡ (told_doms (pure_doms doms.now) (pure_scope scope.old) next.old).1) }
    ensures kept { OnOk result (scope.new ≡ scope.old) }
{
    let mut all = Row::with_capacity(alloc, doms.len())?;
    for dom in doms {
        let item = told_dom(alloc, dom, scope, next)?;
        all.push(item.into_inner())?;
    }
    Ok(all)
}
