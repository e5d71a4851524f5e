//! What stands below a layer with one child: the domain of the child, and the axes before those of the child's tables.
ghost use Rattle.std.specs.Prelude.{◌≡◌, [], IfOk, map, option_map};
ghost use Rattle.ess_core_nodes.specs.NodeViews.{pure_dom, pure_doms};
ghost use Rattle.ess_semantics.specs.Kinds.{dom_list};
ghost use Rattle.ess_structure_domains.specs.Inner as pure;
ghost use Rattle.ess_structure_domains.specs.InnerViews.{pure_inner};

use crate::conversions::{pair_relation, part_sets, tuple_set};
use ess_core::ReprKind;
use ess_core_nodes::{NodeDom, copy_doms};
use ess_rows::{Boxed, NoMemory, Row};
use ess_size_terms::slots;
use ess_structure_terms::{only_axis, slot_axis};
use std::alloc::Global;

/// The domain of a layer's child, and the axes that the layer puts before those of the child's tables.
#[derive(Drop)]
pub struct Inner {
    pub dom: Boxed<NodeDom>,
    pub axes: Row<NodeDom>,
}

/// What stands below a layer of this kind of a domain: none where the kind has no child, or isn't one for the domain. `NoMemory` where
/// there is no room for it.
pub fn inner_of(alloc: Global, kind: ReprKind, dom: &NodeDom) -> Result<Option<Inner>, NoMemory>
    ensures { IfOk result (λ o. option_map pure_inner o ≡ pure.inner_of kind (pure_dom dom.now)) }
{
    match kind {
        ReprKind::Matrix => items(alloc, dom),
        ReprKind::Explicit => set_members(alloc, dom),
        ReprKind::ExplicitVarSizeWithMarker => set_members(alloc, dom),
        ReprKind::ExplicitVarSizeWithFlags => set_members(alloc, dom),
        ReprKind::MSetExplicitWithFlags => mset_members(alloc, dom),
        ReprKind::MSetExplicitWithRepetition => mset_members(alloc, dom),
        ReprKind::Function1D => values(alloc, dom),
        ReprKind::Function1DPartial => values(alloc, dom),
        ReprKind::FunctionND => values_at_tuples(alloc, dom),
        ReprKind::FunctionNDPartial => values_at_tuples(alloc, dom),
        ReprKind::RelationAsSet => tuples(alloc, dom),
        ReprKind::FunctionAsRelation => pairs(alloc, dom),
        ReprKind::PartitionAsSet => parts(alloc, dom),
        _ => Ok(None),
    }
}

/// Axes over copies of these domains. `NoMemory` where there is no room for them.
#[tactic(auto, using(crate::proofs::Listed::copies_listed))]
pub fn axes_over(alloc: Global, doms: &[NodeDom]) -> Result<Row<NodeDom>, NoMemory>
    ensures { IfOk result (λ as'. map pure_dom as' ≡ dom_list (pure_doms doms.now)) }
{
    let axes = copy_doms(alloc, doms)?;
    Ok(axes)
}

/// The items of a matrix, over its index domains.
fn items(alloc: Global, dom: &NodeDom) -> Result<Option<Inner>, NoMemory>
    ensures { IfOk result (λ o. option_map pure_inner o ≡ pure.items_of (pure_dom dom.now)) }
{
    match dom {
        NodeDom::Matrix(axes, item) => {
            let axes = axes_over(alloc, axes.as_slice())?;
            let dom = item.get().copy(alloc)?;
            Ok(Some(Inner { dom, axes }))
        }
        _ => Ok(None),
    }
}

/// The members of a set, in slots.
fn set_members(alloc: Global, dom: &NodeDom) -> Result<Option<Inner>, NoMemory>
    ensures { IfOk result (λ o. option_map pure_inner o ≡ pure.set_members_of (pure_dom dom.now)) }
{
    match dom {
        NodeDom::Set(_, _, member) => Ok(Some(in_slots(alloc, dom, member.get())?)),
        _ => Ok(None),
    }
}

/// The members of a multiset, in slots.
fn mset_members(alloc: Global, dom: &NodeDom) -> Result<Option<Inner>, NoMemory>
    ensures { IfOk result (λ o. option_map pure_inner o ≡ pure.mset_members_of (pure_dom dom.now)) }
{
    match dom {
        NodeDom::MSet(_, _, member) => Ok(Some(in_slots(alloc, dom, member.get())?)),
        _ => Ok(None),
    }
}

/// The members, in the slots of the domain of containers.
fn in_slots(alloc: Global, dom: &NodeDom, member: &NodeDom) -> Result<Inner, NoMemory>
    ensures { IfOk result (λ i. pure_inner i ≡ pure.in_slots (pure_dom dom.now) (pure_dom member.now)) }
{
    let size = slots(alloc, dom)?;
    let axes = slot_axis(alloc, size.get())?;
    let dom = member.copy(alloc)?;
    Ok(Inner { dom, axes })
}

/// The values of a function, over its first domain.
fn values(alloc: Global, dom: &NodeDom) -> Result<Option<Inner>, NoMemory>
    ensures { IfOk result (λ o. option_map pure_inner o ≡ pure.values_of (pure_dom dom.now)) }
{
    match dom {
        NodeDom::Function(_, _, from, to) => {
            let axes = only_axis(alloc, from.get())?;
            let dom = to.get().copy(alloc)?;
            Ok(Some(Inner { dom, axes }))
        }
        _ => Ok(None),
    }
}

/// The values of a function of tuples, over the domains of the components.
fn values_at_tuples(alloc: Global, dom: &NodeDom) -> Result<Option<Inner>, NoMemory>
    ensures { IfOk result (λ o. option_map pure_inner o ≡ pure.values_at_tuples_of (pure_dom dom.now)) }
{
    match dom {
        NodeDom::Function(_, _, from, to) => match from.get() {
            NodeDom::Tuple(parts) => {
                let axes = axes_over(alloc, parts.as_slice())?;
                let dom = to.get().copy(alloc)?;
                Ok(Some(Inner { dom, axes }))
            }
            _ => Ok(None),
        },
        _ => Ok(None),
    }
}

/// The set of a relation's tuples.
fn tuples(alloc: Global, dom: &NodeDom) -> Result<Option<Inner>, NoMemory>
    ensures { IfOk result (λ o. option_map pure_inner o ≡ pure.tuples_of (pure_dom dom.now)) }
{
    match dom {
        NodeDom::Relation(marks, numbers, parts) => {
            let dom = tuple_set(
                alloc,
                marks.as_slice(),
                numbers.as_slice(),
                parts.as_slice(),
            )?;
            Ok(Some(without_axes(alloc, dom)))
        }
        _ => Ok(None),
    }
}

/// The relation of a function's pairs.
fn pairs(alloc: Global, dom: &NodeDom) -> Result<Option<Inner>, NoMemory>
    ensures { IfOk result (λ o. option_map pure_inner o ≡ pure.pairs_of (pure_dom dom.now)) }
{
    match dom {
        NodeDom::Function(marks, numbers, from, to) => {
            let dom = pair_relation(
                alloc,
                marks.as_slice(),
                numbers.as_slice(),
                from.get(),
                to.get(),
            )?;
            Ok(Some(without_axes(alloc, dom)))
        }
        _ => Ok(None),
    }
}

/// The set of a partition's parts.
fn parts(alloc: Global, dom: &NodeDom) -> Result<Option<Inner>, NoMemory>
    ensures { IfOk result (λ o. option_map pure_inner o ≡ pure.parts_of (pure_dom dom.now)) }
{
    match dom {
        NodeDom::Partition(marks, numbers, member) => {
            let dom = part_sets(alloc, marks.as_slice(), numbers.as_slice(), member.get())?;
            Ok(Some(without_axes(alloc, dom)))
        }
        _ => Ok(None),
    }
}

/// The domain, without axes.
fn without_axes(alloc: Global, dom: Boxed<NodeDom>) -> Inner
    ensures { pure_inner result ≡ pure.inner (pure_dom dom) [] }
{
    let axes = Row::new(alloc);
    Inner { dom, axes }
}
