//! The domains of the children of a layer.
ghost use Rattle.std.specs.Prelude.{◌≡◌, IfOk, map};
ghost use Rattle.ess_semantics.specs.Trees.{tuple_dom, record_dom, matrix_dom, set_dom, mset_dom, function_dom, relation_dom, partition_dom};
ghost use Rattle.ess_semantics.specs.Names.{keys};
ghost use Rattle.ess_semantics.specs.Kinds.{doms_of};
ghost use Rattle.ess_core.specs.TreeViews.{words_of, within, exs_of, field_values, pure_attr, pure_repr, pure_dom, pure_doms, pure_field_dom};
ghost use Rattle.ess_repr_declare_laws.specs.ChildDomains.{kind_of, child_doms};

use crate::conversions::{pair_relation, part_sets, tuple_set};
use crate::doms::{domains_of, one, several};
use ess_core::{Attr, Dom, FieldDom, NoMemory, Repr, ReprKind, Row};
use std::alloc::Global;

/// The domains of the children of a representation: parts of its domain, or for a kind that keeps a value as a relation or a set the
/// domain of that, with its sizes as attributes. `NoMemory` where there is no room for them.
pub fn children(alloc: Global, repr: &Repr, dom: &Dom) -> Result<Row<Dom>, NoMemory>
    ensures { IfOk result (λ ds. map pure_dom ds ≡ child_doms (kind_of (pure_repr repr.now)) (pure_dom dom.now)) }
{
    child_domains(alloc, repr.kind, dom)
}

/// The domains of the children of a kind.
#[tactic(auto, using(crate::proofs::ChildRows::none_of_bool, crate::proofs::ChildRows::none_of_int, crate::proofs::ChildRows::none_of_name))]
pub(crate) fn child_domains(alloc: Global, kind: ReprKind, dom: &Dom) -> Result<Row<Dom>, NoMemory>
    ensures { IfOk result (λ ds. map pure_dom ds ≡ child_doms kind (pure_dom dom.now)) }
{
    match dom {
        Dom::Bool => Ok(Row::new(alloc)),
        Dom::Int(_) => Ok(Row::new(alloc)),
        Dom::Name(_) => Ok(Row::new(alloc)),
        Dom::Tuple(parts) => of_tuple(alloc, kind, parts.as_slice()),
        Dom::Rec(fields) => of_record(alloc, kind, fields.as_slice()),
        Dom::Matrix(axes, item) => of_matrix(alloc, kind, axes.as_slice(), item.get()),
        Dom::Set(attrs, member) => of_set(alloc, kind, attrs.as_slice(), member.get()),
        Dom::MSet(attrs, member) => of_mset(alloc, kind, attrs.as_slice(), member.get()),
        Dom::Function(attrs, from, to) => {
            of_function(alloc, kind, attrs.as_slice(), from.get(), to.get())
        }
        Dom::Relation(attrs, parts) => {
            of_relation(alloc, kind, attrs.as_slice(), parts.as_slice())
        }
        Dom::Partition(attrs, member) => {
            of_partition(alloc, kind, attrs.as_slice(), member.get())
        }
    }
}

/// The children of a tuple.
#[tactic(auto, using(crate::proofs::ChildRows::tuple_children))]
fn of_tuple(alloc: Global, kind: ReprKind, parts: &[Dom]) -> Result<Row<Dom>, NoMemory>
    ensures { IfOk result (λ ds. map pure_dom ds ≡ child_doms kind (tuple_dom (pure_doms parts.now))) }
{
    match kind {
        ReprKind::Tuple => several(alloc, parts),
        _ => Ok(Row::new(alloc)),
    }
}

/// Those of a record.
fn of_record(alloc: Global, kind: ReprKind, fields: &[FieldDom]) -> Result<Row<Dom>, NoMemory>
    ensures { IfOk result (λ ds. map pure_dom ds ≡ child_doms kind
        (record_dom (keys (map pure_field_dom fields.now)) (doms_of (field_values (map pure_field_dom fields.now))))) }
{
    match kind {
        ReprKind::Rec => domains_of(alloc, fields),
        _ => Ok(Row::new(alloc)),
    }
}

/// That of a matrix.
fn of_matrix(alloc: Global, kind: ReprKind, axes: &[Dom], item: &Dom) -> Result<Row<Dom>, NoMemory>
    ensures { IfOk result (λ ds. map pure_dom ds ≡ child_doms kind (matrix_dom (pure_doms axes.now) (pure_dom item.now))) }
{
    match kind {
        ReprKind::Matrix => one(alloc, item),
        _ => Ok(Row::new(alloc)),
    }
}

/// That of a set.
fn of_set(alloc: Global, kind: ReprKind, attrs: &[Attr], member: &Dom) -> Result<Row<Dom>, NoMemory>
    ensures { IfOk result (λ ds. map pure_dom ds ≡ child_doms kind
        (set_dom (words_of (map pure_attr attrs.now)) (exs_of (within (map pure_attr attrs.now))) (pure_dom member.now))) }
{
    match kind {
        ReprKind::Explicit => one(alloc, member),
        ReprKind::ExplicitVarSizeWithMarker => one(alloc, member),
        ReprKind::ExplicitVarSizeWithFlags => one(alloc, member),
        _ => Ok(Row::new(alloc)),
    }
}

/// That of a multiset.
fn of_mset(
    alloc: Global,
    kind: ReprKind,
    attrs: &[Attr],
    member: &Dom,
) -> Result<Row<Dom>, NoMemory>
    ensures { IfOk result (λ ds. map pure_dom ds ≡ child_doms kind
        (mset_dom (words_of (map pure_attr attrs.now)) (exs_of (within (map pure_attr attrs.now))) (pure_dom member.now))) }
{
    match kind {
        ReprKind::MSetExplicitWithRepetition => one(alloc, member),
        ReprKind::MSetExplicitWithFlags => one(alloc, member),
        _ => Ok(Row::new(alloc)),
    }
}

/// That of a function.
fn of_function(
    alloc: Global,
    kind: ReprKind,
    attrs: &[Attr],
    from: &Dom,
    to: &Dom,
) -> Result<Row<Dom>, NoMemory>
    ensures { IfOk result (λ ds. map pure_dom ds ≡ child_doms kind
        (function_dom (words_of (map pure_attr attrs.now)) (exs_of (within (map pure_attr attrs.now))) (pure_dom from.now)
        (pure_dom to.now))) }
{
    match kind {
        ReprKind::Function1D => one(alloc, to),
        ReprKind::Function1DPartial => one(alloc, to),
        ReprKind::FunctionND => one(alloc, to),
        ReprKind::FunctionNDPartial => one(alloc, to),
        ReprKind::FunctionAsRelation => pair_relation(alloc, attrs, from, to),
        _ => Ok(Row::new(alloc)),
    }
}

/// That of a relation.
fn of_relation(
    alloc: Global,
    kind: ReprKind,
    attrs: &[Attr],
    parts: &[Dom],
) -> Result<Row<Dom>, NoMemory>
    ensures { IfOk result (λ ds. map pure_dom ds ≡ child_doms kind
        (relation_dom (words_of (map pure_attr attrs.now)) (exs_of (within (map pure_attr attrs.now))) (pure_doms parts.now))) }
{
    match kind {
        ReprKind::RelationAsSet => tuple_set(alloc, attrs, parts),
        _ => Ok(Row::new(alloc)),
    }
}

/// That of a partition.
fn of_partition(
    alloc: Global,
    kind: ReprKind,
    attrs: &[Attr],
    member: &Dom,
) -> Result<Row<Dom>, NoMemory>
    ensures { IfOk result (λ ds. map pure_dom ds ≡ child_doms kind
        (partition_dom (words_of (map pure_attr attrs.now)) (exs_of (within (map pure_attr attrs.now))) (pure_dom member.now))) }
{
    match kind {
        ReprKind::PartitionAsSet => part_sets(alloc, attrs, member),
        _ => Ok(Row::new(alloc)),
    }
}
