//! The axes that a layer puts before those of its children's tables.
ghost use Rattle.std.specs.Prelude.{◌≡◌, [], ◌∷◌, IfOk, map};
ghost use Rattle.ess_semantics.specs.declared.words.ReprKind.TheVariants.{Matrix, Explicit, MSetExplicitWithFlags, Function1D, FunctionND};
ghost use Rattle.ess_semantics.specs.Kinds.{dom_list};
ghost use Rattle.ess_core_nodes.specs.NodeViews.{pure_dom, pure_doms};
ghost use Rattle.ess_repr_declare_laws.specs.DeclaredTrees as pure;

use crate::atoms::axis_dom;
use ess_core::ReprKind;
use ess_core_nodes::NodeDom;
use ess_rows::{NoMemory, Row};
use ess_size_terms::slots;
use std::alloc::Global;

/// An axis over an atom, alone in a row.
pub(crate) fn one_axis(alloc: Global, dom: &NodeDom) -> Result<Row<NodeDom>, NoMemory>
    ensures { IfOk result (λ as'. map pure_dom as' ≡ pure.axis_dom (pure_dom dom.now) ∷ []) }
{
    let axis = axis_dom(alloc, dom)?;
    Row::from_array(alloc, [axis.into_inner()])
}

/// An axis over each of these atoms.
#[tactic(auto, using(crate::proofs::Rows::axes_listed))]
pub(crate) fn axes_over(alloc: Global, doms: &[NodeDom]) -> Result<Row<NodeDom>, NoMemory>
    ensures { IfOk result (λ as'. map pure_dom as' ≡ map pure.axis_dom (dom_list (pure_doms doms.now))) }
{
    let axes = axes_of(alloc, doms)?;
    Ok(axes)
}

/// The same, one by one.
fn axes_of(alloc: Global, doms: &[NodeDom]) -> Result<Row<NodeDom>, NoMemory>
    ensures { IfOk result (λ as'. map pure_dom as' ≡ map pure.axis_dom (map pure_dom doms.now)) }
{
    let mut axes = Row::with_capacity(alloc, doms.len())?;
    for dom in doms {
        let axis = axis_dom(alloc, dom)?;
        axes.push(axis.into_inner())?;
    }
    Ok(axes)
}

/// The axes over the first domain of a function: one for each component of a tuple.
pub(crate) fn argument_axes(alloc: Global, dom: &NodeDom) -> Result<Row<NodeDom>, NoMemory>
    ensures { IfOk result (λ as'. map pure_dom as' ≡ pure.argument_axes (pure_dom dom.now)) }
{
    match dom {
        NodeDom::Tuple(parts) => axes_over(alloc, parts.as_slice()),
        _ => one_axis(alloc, dom),
    }
}

/// The axis of the slots.
pub(crate) fn slot_axis(alloc: Global, dom: &NodeDom) -> Result<Row<NodeDom>, NoMemory>
    ensures { IfOk result (λ as'. map pure_dom as' ≡ pure.slot_axis (pure_dom dom.now)) }
{
    let size = slots(alloc, dom)?;
    ess_structure_terms::slot_axis(alloc, size.get())
}

/// The axes that a layer of this kind puts before those of its children.
pub(crate) fn layer_axes(
    alloc: Global,
    kind: ReprKind,
    dom: &NodeDom,
) -> Result<Row<NodeDom>, NoMemory>
    ensures { IfOk result (λ as'. map pure_dom as' ≡ pure.layer_axes kind (pure_dom dom.now)) }
{
    match kind {
        ReprKind::Matrix => index_axes(alloc, dom),
        ReprKind::Explicit => set_slots(alloc, dom),
        ReprKind::ExplicitVarSizeWithMarker => set_slots(alloc, dom),
        ReprKind::ExplicitVarSizeWithFlags => set_slots(alloc, dom),
        ReprKind::MSetExplicitWithRepetition => mset_slots(alloc, dom),
        ReprKind::MSetExplicitWithFlags => mset_slots(alloc, dom),
        ReprKind::Function1D => only_argument(alloc, dom),
        ReprKind::Function1DPartial => only_argument(alloc, dom),
        ReprKind::FunctionND => arguments(alloc, dom),
        ReprKind::FunctionNDPartial => arguments(alloc, dom),
        _ => Ok(Row::new(alloc)),
    }
}

/// Those of matrices.
fn index_axes(alloc: Global, dom: &NodeDom) -> Result<Row<NodeDom>, NoMemory>
    ensures { IfOk result (λ as'. map pure_dom as' ≡ pure.layer_axes Matrix (pure_dom dom.now)) }
{
    match dom {
        NodeDom::Matrix(indices, _) => axes_over(alloc, indices.as_slice()),
        _ => Ok(Row::new(alloc)),
    }
}

/// Those of sets in slots.
fn set_slots(alloc: Global, dom: &NodeDom) -> Result<Row<NodeDom>, NoMemory>
    ensures { IfOk result (λ as'. map pure_dom as' ≡ pure.layer_axes Explicit (pure_dom dom.now)) }
{
    match dom {
        NodeDom::Set(_, _, _) => slot_axis(alloc, dom),
        _ => Ok(Row::new(alloc)),
    }
}

/// Those of multisets in slots.
fn mset_slots(alloc: Global, dom: &NodeDom) -> Result<Row<NodeDom>, NoMemory>
    ensures { IfOk result (λ as'. map pure_dom as' ≡ pure.layer_axes MSetExplicitWithFlags (pure_dom dom.now)) }
{
    match dom {
        NodeDom::MSet(_, _, _) => slot_axis(alloc, dom),
        _ => Ok(Row::new(alloc)),
    }
}

/// Those of functions with one axis.
fn only_argument(alloc: Global, dom: &NodeDom) -> Result<Row<NodeDom>, NoMemory>
    ensures { IfOk result (λ as'. map pure_dom as' ≡ pure.layer_axes Function1D (pure_dom dom.now)) }
{
    match dom {
        NodeDom::Function(_, _, from, _) => one_axis(alloc, from.get()),
        _ => Ok(Row::new(alloc)),
    }
}

/// Those of functions with an axis for each component.
fn arguments(alloc: Global, dom: &NodeDom) -> Result<Row<NodeDom>, NoMemory>
    ensures { IfOk result (λ as'. map pure_dom as' ≡ pure.layer_axes FunctionND (pure_dom dom.now)) }
{
    match dom {
        NodeDom::Function(_, _, from, _) => argument_axes(alloc, from.get()),
        _ => Ok(Row::new(alloc)),
    }
}
