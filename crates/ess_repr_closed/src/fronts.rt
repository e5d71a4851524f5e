//! The axes that a layer puts before those of its children's tables.
ghost use Rattle.std.specs.Prelude.{◌≡◌, [], ◌∷◌, IfOk};
ghost use Rattle.ess_semantics.specs.Numbers.{one_to};
ghost use Rattle.ess_semantics.specs.Layers.{codes_of};
ghost use Rattle.ess_semantics.specs.Domains.{booleans, matrices, sets, msets, functions};
ghost use Rattle.ess_eval_domains.specs.ClosedViews.{pure_closed, pure_closeds, pure_attributes};
ghost use Rattle.ess_repr_layers_laws.specs.LayerParts.{front_axes as fronts_of};
ghost use Rattle.ess_repr_closed.specs.ComponentAxes.{component_axes};

use crate::axes::{axes_of_each, axis};
use crate::sizes::{mset_slots, set_slots};
use ess_core::{NoMemory, ReprKind, Row};
use ess_eval_domains::{Attribute, Closed};
use ess_repr_slots::slot_axis;
use std::alloc::Global;

/// The axes that the layer of a kind over a domain puts before those of its children's tables; none where it has no children, or the
/// kind is none for the domain. `NoMemory` where there is no room for them.
#[tactic(auto, using(crate::proofs::LayerForms::no_front_of_bool, crate::proofs::LayerForms::no_front_of_int, crate::proofs::LayerForms::no_front_of_named, crate::proofs::LayerForms::no_front_of_tuple, crate::proofs::LayerForms::no_front_of_record, crate::proofs::LayerForms::no_front_of_relation, crate::proofs::LayerForms::no_front_of_partition))]
pub fn front_axes(alloc: Global, kind: ReprKind, domain: &Closed) -> Result<Row<Row<i64>>, NoMemory>
    ensures { IfOk result (λ r. r ≡ fronts_of kind (pure_closed domain.now)) }
{
    match domain {
        Closed::Matrix(axes, item) => of_matrix(alloc, kind, axes.as_slice(), item.get()),
        Closed::Set(own, member) => of_set(alloc, kind, own.as_slice(), member.get()),
        Closed::MSet(own, member) => of_mset(alloc, kind, own.as_slice(), member.get()),
        Closed::Function(own, from, to) => {
            of_function(alloc, kind, own.as_slice(), from.get(), to.get())
        }
        _ => Ok(Row::new(alloc)),
    }
}

/// Those of a matrix.
fn of_matrix(
    alloc: Global,
    kind: ReprKind,
    axes: &[Closed],
    item: &Closed,
) -> Result<Row<Row<i64>>, NoMemory>
    ensures { IfOk result (λ r. r ≡ fronts_of kind (matrices (pure_closeds axes.now) (pure_closed item.now))) }
{
    match kind {
        ReprKind::Matrix => axes_of_each(alloc, axes),
        _ => Ok(Row::new(alloc)),
    }
}

/// Those of a set.
fn of_set(
    alloc: Global,
    kind: ReprKind,
    own: &[Attribute],
    member: &Closed,
) -> Result<Row<Row<i64>>, NoMemory>
    ensures { IfOk result (λ r. r ≡ fronts_of kind (sets (pure_attributes own.now) (pure_closed member.now))) }
{
    match kind {
        ReprKind::Explicit => numbers_to(alloc, set_slots(alloc, own, member)?),
        ReprKind::ExplicitVarSizeWithMarker => numbers_to(alloc, set_slots(alloc, own, member)?),
        ReprKind::ExplicitVarSizeWithFlags => numbers_to(alloc, set_slots(alloc, own, member)?),
        _ => Ok(Row::new(alloc)),
    }
}

/// Those of a multiset.
fn of_mset(
    alloc: Global,
    kind: ReprKind,
    own: &[Attribute],
    member: &Closed,
) -> Result<Row<Row<i64>>, NoMemory>
    ensures { IfOk result (λ r. r ≡ fronts_of kind (msets (pure_attributes own.now) (pure_closed member.now))) }
{
    match kind {
        ReprKind::MSetExplicitWithRepetition => numbers_to(alloc, mset_slots(alloc, own, member)?),
        ReprKind::MSetExplicitWithFlags => numbers_to(alloc, mset_slots(alloc, own, member)?),
        _ => Ok(Row::new(alloc)),
    }
}

/// Those of a function.
#[tactic(auto, using(crate::proofs::LayerForms::front_of_components, crate::proofs::LayerForms::front_of_arguments))]
fn of_function(
    alloc: Global,
    kind: ReprKind,
    own: &[Attribute],
    from: &Closed,
    to: &Closed,
) -> Result<Row<Row<i64>>, NoMemory>
    ensures { IfOk result (λ r. r ≡ fronts_of kind (functions (pure_attributes own.now) (pure_closed from.now) (pure_closed to.now))) }
{
    match kind {
        ReprKind::Function1D => one_axis(alloc, from),
        ReprKind::Function1DPartial => one_axis(alloc, from),
        ReprKind::FunctionND => axes_of_components(alloc, from),
        ReprKind::FunctionNDPartial => axes_of_components(alloc, from),
        _ => Ok(Row::new(alloc)),
    }
}

/// One axis with the numbers of so many slots.
pub(crate) fn numbers_to(alloc: Global, slots: usize) -> Result<Row<Row<i64>>, NoMemory>
    ensures { IfOk result (λ r. r ≡ one_to slots ∷ []) }
{
    Row::from_array(alloc, [slot_axis(alloc, slots)?])
}

/// One axis with the members of an atom.
pub(crate) fn one_axis(alloc: Global, domain: &Closed) -> Result<Row<Row<i64>>, NoMemory>
    ensures { IfOk result (λ r. r ≡ codes_of (pure_closed domain.now) ∷ []) }
{
    Row::from_array(alloc, [axis(alloc, domain)?])
}

/// An axis for each component of a tuple; none for any other domain.
pub(crate) fn axes_of_components(alloc: Global, domain: &Closed) -> Result<Row<Row<i64>>, NoMemory>
    ensures { IfOk result (λ r. r ≡ component_axes (pure_closed domain.now)) }
{
    match domain {
        Closed::Tuple(parts) => axes_of_each(alloc, parts.as_slice()),
        _ => Ok(Row::new(alloc)),
    }
}
