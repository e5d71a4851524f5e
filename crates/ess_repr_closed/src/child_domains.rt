//! The domains of the children of a layer.
ghost use Rattle.std.specs.Prelude.{◌≡◌, IfOk, map};
ghost use Rattle.ess_semantics.specs.Domains.{tuples, matrices, sets, msets, functions, relations, partitions};
ghost use Rattle.ess_eval_domains.specs.ClosedViews.{pure_closed, pure_closeds, pure_field_closed, pure_attributes, record_domain};
ghost use Rattle.ess_repr_layers_laws.specs.LayerParts.{children_of};
ghost use Rattle.ess_repr_closed.specs.ComponentAxes.{component_child};

use crate::conversions::{pair_relation, part_sets, tuple_set};
use crate::copies::{domains_of, one, several};
use ess_core::{NoMemory, ReprKind, Row};
use ess_eval_domains::{Attribute, Closed, FieldClosed};
use std::alloc::Global;

/// The domains of the children of a kind over a domain: parts of it, or for a kind that keeps a value as a relation or a set the domain
/// of that, with its sizes as attributes. None where the kind is none for the domain. `NoMemory` where there is no room for them, or a
/// size can't be counted.
#[tactic(auto, using(crate::proofs::LayerForms::no_child_of_bool, crate::proofs::LayerForms::no_child_of_int, crate::proofs::LayerForms::no_child_of_named))]
pub fn children(alloc: Global, kind: ReprKind, domain: &Closed) -> Result<Row<Closed>, NoMemory>
    ensures { IfOk result (λ ds. map pure_closed ds ≡ children_of kind (pure_closed domain.now)) }
{
    match domain {
        Closed::Bool => Ok(Row::new(alloc)),
        Closed::Int(_) => Ok(Row::new(alloc)),
        Closed::Named(_, _) => Ok(Row::new(alloc)),
        Closed::Tuple(parts) => of_tuple(alloc, kind, parts.as_slice()),
        Closed::Rec(fields) => of_record(alloc, kind, fields.as_slice()),
        Closed::Matrix(axes, item) => of_matrix(alloc, kind, axes.as_slice(), item.get()),
        Closed::Set(own, member) => of_set(alloc, kind, own.as_slice(), member.get()),
        Closed::MSet(own, member) => of_mset(alloc, kind, own.as_slice(), member.get()),
        Closed::Function(own, from, to) => {
            of_function(alloc, kind, own.as_slice(), from.get(), to.get())
        }
        Closed::Relation(own, parts) => of_relation(alloc, kind, own.as_slice(), parts.as_slice()),
        Closed::Partition(own, member) => of_partition(alloc, kind, own.as_slice(), member.get()),
    }
}

/// The children of a tuple.
#[tactic(auto, using(crate::proofs::ChildRows::tuple_children))]
fn of_tuple(alloc: Global, kind: ReprKind, parts: &[Closed]) -> Result<Row<Closed>, NoMemory>
    ensures { IfOk result (λ ds. map pure_closed ds ≡ children_of kind (tuples (pure_closeds parts.now))) }
{
    match kind {
        ReprKind::Tuple => several(alloc, parts),
        _ => Ok(Row::new(alloc)),
    }
}

/// Those of a record.
fn of_record(alloc: Global, kind: ReprKind, fields: &[FieldClosed]) -> Result<Row<Closed>, NoMemory>
    ensures { IfOk result (λ ds. map pure_closed ds ≡ children_of kind (record_domain (map pure_field_closed fields.now))) }
{
    match kind {
        ReprKind::Rec => domains_of(alloc, fields),
        _ => Ok(Row::new(alloc)),
    }
}

/// That of a matrix.
fn of_matrix(
    alloc: Global,
    kind: ReprKind,
    axes: &[Closed],
    item: &Closed,
) -> Result<Row<Closed>, NoMemory>
    ensures { IfOk result (λ ds. map pure_closed ds ≡ children_of kind (matrices (pure_closeds axes.now) (pure_closed item.now))) }
{
    match kind {
        ReprKind::Matrix => one(alloc, item),
        _ => Ok(Row::new(alloc)),
    }
}

/// That of a set.
fn of_set(
    alloc: Global,
    kind: ReprKind,
    own: &[Attribute],
    member: &Closed,
) -> Result<Row<Closed>, NoMemory>
    ensures { IfOk result (λ ds. map pure_closed ds ≡ children_of kind (sets (pure_attributes own.now) (pure_closed member.now))) }
{
    match kind {
        ReprKind::Explicit => one(alloc, member),
        ReprKind::ExplicitVarSizeWithMarker => one(alloc, member),
        ReprKind::ExplicitVarSizeWithFlags => one(alloc, member),
        _ => Ok(Row::new(alloc)),
    }
}

/// That of a multiset.
fn of_mset(
    alloc: Global,
    kind: ReprKind,
    own: &[Attribute],
    member: &Closed,
) -> Result<Row<Closed>, NoMemory>
    ensures { IfOk result (λ ds. map pure_closed ds ≡ children_of kind (msets (pure_attributes own.now) (pure_closed member.now))) }
{
    match kind {
        ReprKind::MSetExplicitWithRepetition => one(alloc, member),
        ReprKind::MSetExplicitWithFlags => one(alloc, member),
        _ => Ok(Row::new(alloc)),
    }
}

/// That of a function.
#[tactic(auto, using(crate::proofs::ChildRows::child_of_components, crate::proofs::ChildRows::child_of_flags))]
fn of_function(
    alloc: Global,
    kind: ReprKind,
    own: &[Attribute],
    from: &Closed,
    to: &Closed,
) -> Result<Row<Closed>, NoMemory>
    ensures { IfOk result (λ ds. map pure_closed ds ≡ children_of kind (functions (pure_attributes own.now) (pure_closed from.now) (pure_closed to.now))) }
{
    match kind {
        ReprKind::Function1D => one(alloc, to),
        ReprKind::Function1DPartial => one(alloc, to),
        ReprKind::FunctionND => of_components(alloc, from, to),
        ReprKind::FunctionNDPartial => of_components(alloc, from, to),
        ReprKind::FunctionAsRelation => pair_relation(alloc, own, from, to),
        _ => Ok(Row::new(alloc)),
    }
}

/// That of a function whose arguments are tuples; none where they are of another domain.
fn of_components(alloc: Global, from: &Closed, to: &Closed) -> Result<Row<Closed>, NoMemory>
    ensures { IfOk result (λ ds. map pure_closed ds ≡ component_child (pure_closed from.now) (pure_closed to.now)) }
{
    match from {
        Closed::Tuple(_) => one(alloc, to),
        _ => Ok(Row::new(alloc)),
    }
}

/// That of a relation.
fn of_relation(
    alloc: Global,
    kind: ReprKind,
    own: &[Attribute],
    parts: &[Closed],
) -> Result<Row<Closed>, NoMemory>
    ensures { IfOk result (λ ds. map pure_closed ds ≡ children_of kind (relations (pure_attributes own.now) (pure_closeds parts.now))) }
{
    match kind {
        ReprKind::RelationAsSet => tuple_set(alloc, own, parts),
        _ => Ok(Row::new(alloc)),
    }
}

/// That of a partition.
fn of_partition(
    alloc: Global,
    kind: ReprKind,
    own: &[Attribute],
    member: &Closed,
) -> Result<Row<Closed>, NoMemory>
    ensures { IfOk result (λ ds. map pure_closed ds ≡ children_of kind (partitions (pure_attributes own.now) (pure_closed member.now))) }
{
    match kind {
        ReprKind::PartitionAsSet => part_sets(alloc, own, member),
        _ => Ok(Row::new(alloc)),
    }
}
