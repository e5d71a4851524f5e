//! The axes that a layer puts before those of its children, and whether their cells can be out of use.
ghost use Rattle.std.specs.Prelude.{◌≡◌, IfOk, map, [], ◌||◌};
ghost use Rattle.ess_semantics.specs.Trees.{no_exs, bool_dom, set_dom, mset_dom, function_dom};
ghost use Rattle.ess_core.specs.TreeViews.{words_of, within, exs_of, pure_attr, pure_dom};
ghost use Rattle.ess_repr_declare_laws.specs.DeclaredTrees.{layer_axes as axes_of_layer, frees_children};
ghost use Rattle.ess_repr.specs.CellUses.{can_be_out};

use crate::cells::{CellUse, axes_of_argument, axes_over, axis_alone};
use crate::own_tables::{mset_axis, set_axis};
use ess_core::{Attr, Dom, NoMemory, ReprKind, Row};
use std::alloc::Global;

/// Whether the cells of a layer's children can be out of use, where the layer's own can or can't.
pub(crate) fn use_of_children(out: CellUse, kind: ReprKind) -> CellUse
    ensures { can_be_out result ≡ (can_be_out out || frees_children kind) }
{
    match kind {
        ReprKind::ExplicitVarSizeWithMarker => CellUse::CanBeOut,
        ReprKind::ExplicitVarSizeWithFlags => CellUse::CanBeOut,
        ReprKind::MSetExplicitWithRepetition => CellUse::CanBeOut,
        ReprKind::MSetExplicitWithFlags => CellUse::CanBeOut,
        ReprKind::Function1DPartial => CellUse::CanBeOut,
        ReprKind::FunctionNDPartial => CellUse::CanBeOut,
        _ => out,
    }
}

/// The axes that a layer of this kind puts before those of its children.
#[tactic(auto, using(crate::proofs::OwnTrees::function_axes_alike))]
pub(crate) fn layer_axes(alloc: Global, kind: ReprKind, dom: &Dom) -> Result<Row<Dom>, NoMemory>
    ensures { IfOk result (λ ds. map pure_dom ds ≡ axes_of_layer kind (pure_dom dom.now)) }
{
    match dom {
        Dom::Matrix(axes, _) => match kind {
            ReprKind::Matrix => axes_over(alloc, axes.as_slice()),
            _ => Ok(Row::new(alloc)),
        },
        Dom::Set(attrs, member) => of_set(alloc, kind, attrs.as_slice(), member.get()),
        Dom::MSet(attrs, member) => of_mset(alloc, kind, attrs.as_slice(), member.get()),
        Dom::Function(_, from, _) => of_function(alloc, kind, from.get()),
        _ => Ok(Row::new(alloc)),
    }
}

/// Those of a set.
fn of_set(alloc: Global, kind: ReprKind, attrs: &[Attr], member: &Dom) -> Result<Row<Dom>, NoMemory>
    ensures { IfOk result (λ ds. map pure_dom ds ≡ axes_of_layer kind
        (set_dom (words_of (map pure_attr attrs.now)) (exs_of (within (map pure_attr attrs.now))) (pure_dom member.now))) }
{
    match kind {
        ReprKind::Explicit => set_axis(alloc, attrs, member),
        ReprKind::ExplicitVarSizeWithMarker => set_axis(alloc, attrs, member),
        ReprKind::ExplicitVarSizeWithFlags => set_axis(alloc, attrs, member),
        _ => Ok(Row::new(alloc)),
    }
}

/// Those of a multiset.
fn of_mset(
    alloc: Global,
    kind: ReprKind,
    attrs: &[Attr],
    member: &Dom,
) -> Result<Row<Dom>, NoMemory>
    ensures { IfOk result (λ ds. map pure_dom ds ≡ axes_of_layer kind
        (mset_dom (words_of (map pure_attr attrs.now)) (exs_of (within (map pure_attr attrs.now))) (pure_dom member.now))) }
{
    match kind {
        ReprKind::MSetExplicitWithRepetition => mset_axis(alloc, attrs, member),
        ReprKind::MSetExplicitWithFlags => mset_axis(alloc, attrs, member),
        _ => Ok(Row::new(alloc)),
    }
}

/// Those of a function from this domain.
fn of_function(alloc: Global, kind: ReprKind, from: &Dom) -> Result<Row<Dom>, NoMemory>
    ensures { IfOk result (λ ds. map pure_dom ds ≡ axes_of_layer kind (function_dom [] no_exs (pure_dom from.now) bool_dom)) }
{
    match kind {
        ReprKind::Function1D => axis_alone(alloc, from),
        ReprKind::Function1DPartial => axis_alone(alloc, from),
        ReprKind::FunctionND => axes_of_argument(alloc, from),
        ReprKind::FunctionNDPartial => axes_of_argument(alloc, from),
        _ => Ok(Row::new(alloc)),
    }
}
