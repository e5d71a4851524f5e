//! The axes of a layer's own tables.
ghost use Rattle.std.specs.Prelude.{◌≡◌, [], ◌∷◌, IfOk};
ghost use Rattle.ess_semantics.specs.Numbers.{one_to};
ghost use Rattle.ess_semantics.specs.Domains.{booleans, sets, msets, functions, relations, partitions};
ghost use Rattle.ess_eval_domains.specs.ClosedViews.{pure_closed, pure_closeds, pure_attributes};
ghost use Rattle.ess_repr_layers_laws.specs.LayerParts.{own_axes_of};
ghost use Rattle.ess_repr_closed.specs.ComponentAxes.{component_flags};

use crate::axes::axes_of_each;
use crate::fronts::{numbers_to, one_axis};
use crate::sizes::{mset_slots, set_slots};
use ess_core::{NoMemory, ReprKind, Row};
use ess_eval_domains::{Attribute, Closed};
use std::alloc::Global;

/// The axes of each of the tables that the layer of a kind over a domain has of its own; none where the kind is none for the domain.
/// `NoMemory` where there is no room for them.
#[tactic(auto, using(crate::proofs::LayerForms::no_own_of_tuple, crate::proofs::LayerForms::no_own_of_record, crate::proofs::LayerForms::no_own_of_matrix, crate::proofs::LayerForms::own_of_int, crate::proofs::LayerForms::own_of_named))]
pub fn own_axes(
    alloc: Global,
    kind: ReprKind,
    domain: &Closed,
) -> Result<Row<Row<Row<i64>>>, NoMemory>
    ensures { IfOk result (λ r. r ≡ own_axes_of kind (pure_closed domain.now)) }
{
    match domain {
        Closed::Bool => of_atom(alloc, kind),
        Closed::Int(_) => of_atom(alloc, kind),
        Closed::Named(_, _) => of_atom(alloc, kind),
        Closed::Set(own, member) => of_set(alloc, kind, own.as_slice(), member.get()),
        Closed::MSet(own, member) => of_mset(alloc, kind, own.as_slice(), member.get()),
        Closed::Function(own, from, to) => {
            of_function(alloc, kind, own.as_slice(), from.get(), to.get())
        }
        Closed::Relation(own, parts) => of_relation(alloc, kind, own.as_slice(), parts.as_slice()),
        Closed::Partition(own, member) => of_partition(alloc, kind, own.as_slice(), member.get()),
        _ => Ok(Row::new(alloc)),
    }
}

/// That of an atom.
fn of_atom(alloc: Global, kind: ReprKind) -> Result<Row<Row<Row<i64>>>, NoMemory>
    ensures { IfOk result (λ r. r ≡ own_axes_of kind booleans) }
{
    match kind {
        ReprKind::Atom => one_cell(alloc),
        _ => Ok(Row::new(alloc)),
    }
}

/// Those of a set.
fn of_set(
    alloc: Global,
    kind: ReprKind,
    own: &[Attribute],
    member: &Closed,
) -> Result<Row<Row<Row<i64>>>, NoMemory>
    ensures { IfOk result (λ r. r ≡ own_axes_of kind (sets (pure_attributes own.now) (pure_closed member.now))) }
{
    match kind {
        ReprKind::Occurrence => alone(alloc, one_axis(alloc, member)?),
        ReprKind::ExplicitVarSizeWithMarker => one_cell(alloc),
        ReprKind::ExplicitVarSizeWithFlags => slots(alloc, set_slots(alloc, own, member)?),
        ReprKind::ExplicitVarSizeWithDummy => slots(alloc, set_slots(alloc, own, member)?),
        _ => Ok(Row::new(alloc)),
    }
}

/// Those of a multiset.
fn of_mset(
    alloc: Global,
    kind: ReprKind,
    own: &[Attribute],
    member: &Closed,
) -> Result<Row<Row<Row<i64>>>, NoMemory>
    ensures { IfOk result (λ r. r ≡ own_axes_of kind (msets (pure_attributes own.now) (pure_closed member.now))) }
{
    match kind {
        ReprKind::MSetOccurrence => alone(alloc, one_axis(alloc, member)?),
        ReprKind::MSetExplicitWithRepetition => one_cell(alloc),
        ReprKind::MSetExplicitWithFlags => slots(alloc, mset_slots(alloc, own, member)?),
        _ => Ok(Row::new(alloc)),
    }
}

/// Those of a function: flags.
#[tactic(auto, using(crate::proofs::LayerForms::flags_of_components))]
fn of_function(
    alloc: Global,
    kind: ReprKind,
    own: &[Attribute],
    from: &Closed,
    to: &Closed,
) -> Result<Row<Row<Row<i64>>>, NoMemory>
    ensures { IfOk result (λ r. r ≡ own_axes_of kind (functions (pure_attributes own.now) (pure_closed from.now) (pure_closed to.now))) }
{
    match kind {
        ReprKind::Function1DPartial => alone(alloc, one_axis(alloc, from)?),
        ReprKind::FunctionNDPartial => flags_of_components(alloc, from),
        _ => Ok(Row::new(alloc)),
    }
}

/// The axes of the flags of arguments that are tuples; none for any other domain.
fn flags_of_components(alloc: Global, domain: &Closed) -> Result<Row<Row<Row<i64>>>, NoMemory>
    ensures { IfOk result (λ r. r ≡ component_flags (pure_closed domain.now)) }
{
    match domain {
        Closed::Tuple(parts) => alone(alloc, axes_of_each(alloc, parts.as_slice())?),
        _ => Ok(Row::new(alloc)),
    }
}

/// Those of a relation.
fn of_relation(
    alloc: Global,
    kind: ReprKind,
    own: &[Attribute],
    parts: &[Closed],
) -> Result<Row<Row<Row<i64>>>, NoMemory>
    ensures { IfOk result (λ r. r ≡ own_axes_of kind (relations (pure_attributes own.now) (pure_closeds parts.now))) }
{
    match kind {
        ReprKind::RelationAsMatrix => alone(alloc, axes_of_each(alloc, parts)?),
        _ => Ok(Row::new(alloc)),
    }
}

/// Those of a partition: the number of parts, and the number of each member's part.
fn of_partition(
    alloc: Global,
    kind: ReprKind,
    own: &[Attribute],
    member: &Closed,
) -> Result<Row<Row<Row<i64>>>, NoMemory>
    ensures { IfOk result (λ r. r ≡ own_axes_of kind (partitions (pure_attributes own.now) (pure_closed member.now))) }
{
    match kind {
        ReprKind::PartitionOccurrence => {
            let mut tables = one_cell(alloc)?;
            tables.push(one_axis(alloc, member)?)?;
            Ok(tables)
        }
        _ => Ok(Row::new(alloc)),
    }
}

/// A table over these axes.
fn alone(alloc: Global, axes: Row<Row<i64>>) -> Result<Row<Row<Row<i64>>>, NoMemory>
    ensures { IfOk result (λ r. r ≡ axes ∷ []) }
{
    Row::from_array(alloc, [axes])
}

/// A table of one cell.
fn one_cell(alloc: Global) -> Result<Row<Row<Row<i64>>>, NoMemory>
    ensures { IfOk result (λ r. r ≡ [] ∷ []) }
{
    alone(alloc, Row::new(alloc))
}

/// A table with a cell for each slot.
fn slots(alloc: Global, count: usize) -> Result<Row<Row<Row<i64>>>, NoMemory>
    ensures { IfOk result (λ r. r ≡ (one_to count ∷ []) ∷ []) }
{
    alone(alloc, numbers_to(alloc, count)?)
}
