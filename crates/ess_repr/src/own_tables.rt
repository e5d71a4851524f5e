//! The own tables of a layer, with the ends of their names.
ghost use Rattle.std.specs.Prelude.{◌≡◌, IfOk, map, [], ◌∷◌, false};
ghost use Rattle.ess_semantics.specs.declared.words.ReprKind.TheVariants.{Atom};
ghost use Rattle.ess_semantics.specs.Trees.{no_exs, bool_dom, set_dom, mset_dom, function_dom, relation_dom, partition_dom};
ghost use Rattle.ess_core.specs.TreeViews.{words_of, within, exs_of, pure_attr, pure_dom, pure_doms};
ghost use Rattle.ess_core.specs.TableViews.{pure_decl};
ghost use Rattle.ess_repr_declare_laws.specs.DeclaredTrees.{decl, slot_axis as slot_axes, own_trees};
ghost use Rattle.ess_repr.specs.CellUses.{can_be_out};

use crate::cells::{
    CellUse, axes_of_argument, axes_over, axis_alone, cell, from_0_to, from_1_to, widened_if,
    with_dummy,
};
use crate::sizes::{bound, mset_slots, occurrences, set_slots};
use ess_core::{Attr, Boxed, CellDecl, Dom, NoMemory, ReprKind, Row, Text};
use std::alloc::Global;

/// A table alone.
fn table(
    alloc: Global,
    name: &str,
    axes: Row<Dom>,
    cell: Boxed<Dom>,
) -> Result<Row<CellDecl>, NoMemory>
    ensures { IfOk result (λ ts. map pure_decl ts ≡ decl name.now (map pure_dom axes) (pure_dom cell) ∷ []) }
{
    let name = Text::from_str(alloc, name)?;
    let cell = cell.into_inner();
    Row::from_array(alloc, [CellDecl { name, axes, cell }])
}

/// A table of truth values.
fn flags(alloc: Global, name: &str, axes: Row<Dom>) -> Result<Row<CellDecl>, NoMemory>
    ensures { IfOk result (λ ts. map pure_decl ts ≡ decl name.now (map pure_dom axes) bool_dom ∷ []) }
{
    let cell = Boxed::new(alloc, Dom::Bool)?;
    table(alloc, name, axes, cell)
}

/// The axis of the slots of a set.
pub(crate) fn set_axis(alloc: Global, attrs: &[Attr], member: &Dom) -> Result<Row<Dom>, NoMemory>
    ensures { IfOk result (λ ds. map pure_dom ds ≡ slot_axes
        (set_dom (words_of (map pure_attr attrs.now)) (exs_of (within (map pure_attr attrs.now))) (pure_dom member.now))) }
{
    let slots = set_slots(alloc, attrs, member)?;
    let axis = from_1_to(alloc, slots)?;
    Row::from_array(alloc, [axis.into_inner()])
}

/// The axis of the slots of a multiset.
pub(crate) fn mset_axis(alloc: Global, attrs: &[Attr], member: &Dom) -> Result<Row<Dom>, NoMemory>
    ensures { IfOk result (λ ds. map pure_dom ds ≡ slot_axes
        (mset_dom (words_of (map pure_attr attrs.now)) (exs_of (within (map pure_attr attrs.now))) (pure_dom member.now))) }
{
    let slots = mset_slots(alloc, attrs, member)?;
    let axis = from_1_to(alloc, slots)?;
    Row::from_array(alloc, [axis.into_inner()])
}

/// The own tables of a layer of this kind over the domain, where its cells can be out of use or not.
pub(crate) fn own_tables(
    alloc: Global,
    out: CellUse,
    kind: ReprKind,
    dom: &Dom,
) -> Result<Row<CellDecl>, NoMemory>
    ensures { IfOk result (λ ts. map pure_decl ts ≡ own_trees (can_be_out out) kind (pure_dom dom.now)) }
{
    match kind {
        ReprKind::Atom => {
            let cell = widened_if(alloc, out, cell(alloc, dom)?)?;
            table(alloc, "", Row::new(alloc), cell)
        }
        _ => layer_tables(alloc, out, kind, dom),
    }
}

/// The same of a kind that keeps no atom.
#[tactic(auto, using(crate::proofs::OwnTrees::function_alike, crate::proofs::OwnTrees::relation_alike, crate::proofs::OwnTrees::partition_alike))]
fn layer_tables(
    alloc: Global,
    out: CellUse,
    kind: ReprKind,
    dom: &Dom,
) -> Result<Row<CellDecl>, NoMemory>
    requires { kind ≡ Atom → ⊥ }
    ensures { IfOk result (λ ts. map pure_decl ts ≡ own_trees (can_be_out out) kind (pure_dom dom.now)) }
{
    match dom {
        Dom::Set(attrs, member) => of_set(alloc, out, kind, attrs.as_slice(), member.get()),
        Dom::MSet(attrs, member) => of_mset(alloc, out, kind, attrs.as_slice(), member.get()),
        Dom::Function(_, from, _) => of_function(alloc, kind, from.get()),
        Dom::Relation(_, parts) => of_relation(alloc, kind, parts.as_slice()),
        Dom::Partition(_, member) => of_partition(alloc, out, kind, member.get()),
        _ => Ok(Row::new(alloc)),
    }
}

/// Those of a set.
fn of_set(
    alloc: Global,
    out: CellUse,
    kind: ReprKind,
    attrs: &[Attr],
    member: &Dom,
) -> Result<Row<CellDecl>, NoMemory>
    requires { kind ≡ Atom → ⊥ }
    ensures { IfOk result (λ ts. map pure_decl ts ≡ own_trees (can_be_out out) kind
        (set_dom (words_of (map pure_attr attrs.now)) (exs_of (within (map pure_attr attrs.now))) (pure_dom member.now))) }
{
    match kind {
        ReprKind::Occurrence => {
            let axes = axis_alone(alloc, member)?;
            flags(alloc, "_Occurrence", axes)
        }
        ReprKind::ExplicitVarSizeWithMarker => {
            let slots = set_slots(alloc, attrs, member)?;
            let cell = from_0_to(alloc, slots)?;
            table(
                alloc,
                "_ExplicitVarSizeWithMarker_Marker",
                Row::new(alloc),
                cell,
            )
        }
        ReprKind::ExplicitVarSizeWithFlags => {
            let axes = set_axis(alloc, attrs, member)?;
            flags(alloc, "_ExplicitVarSizeWithFlags_Flags", axes)
        }
        ReprKind::ExplicitVarSizeWithDummy => {
            let axes = set_axis(alloc, attrs, member)?;
            let cell = widened_if(alloc, out, with_dummy(alloc, member)?)?;
            table(alloc, "_ExplicitVarSizeWithDummy", axes, cell)
        }
        _ => Ok(Row::new(alloc)),
    }
}

/// Those of a multiset.
fn of_mset(
    alloc: Global,
    out: CellUse,
    kind: ReprKind,
    attrs: &[Attr],
    member: &Dom,
) -> Result<Row<CellDecl>, NoMemory>
    requires { kind ≡ Atom → ⊥ }
    ensures { IfOk result (λ ts. map pure_decl ts ≡ own_trees (can_be_out out) kind
        (mset_dom (words_of (map pure_attr attrs.now)) (exs_of (within (map pure_attr attrs.now))) (pure_dom member.now))) }
{
    match kind {
        ReprKind::MSetOccurrence => {
            let cell = from_0_to(alloc, occurrences(alloc, attrs)?)?;
            let axes = axis_alone(alloc, member)?;
            table(alloc, "_MSetOccurrence", axes, cell)
        }
        ReprKind::MSetExplicitWithRepetition => {
            let slots = mset_slots(alloc, attrs, member)?;
            let cell = from_0_to(alloc, slots)?;
            table(
                alloc,
                "_MSetExplicitWithRepetition_Marker",
                Row::new(alloc),
                cell,
            )
        }
        ReprKind::MSetExplicitWithFlags => {
            let cell = from_0_to(alloc, occurrences(alloc, attrs)?)?;
            let axes = mset_axis(alloc, attrs, member)?;
            table(alloc, "_MSetExplicitWithFlags_Flags", axes, cell)
        }
        _ => Ok(Row::new(alloc)),
    }
}

/// Those of a function from this domain.
fn of_function(alloc: Global, kind: ReprKind, from: &Dom) -> Result<Row<CellDecl>, NoMemory>
    requires { kind ≡ Atom → ⊥ }
    ensures { IfOk result (λ ts. map pure_decl ts ≡ own_trees false kind (function_dom [] no_exs (pure_dom from.now) bool_dom)) }
{
    match kind {
        ReprKind::Function1DPartial => {
            let axes = axis_alone(alloc, from)?;
            flags(alloc, "_Function1DPartial_Flags", axes)
        }
        ReprKind::FunctionNDPartial => {
            let axes = axes_of_argument(alloc, from)?;
            flags(alloc, "_FunctionNDPartial_Flags", axes)
        }
        _ => Ok(Row::new(alloc)),
    }
}

/// Those of a relation of these components.
fn of_relation(alloc: Global, kind: ReprKind, parts: &[Dom]) -> Result<Row<CellDecl>, NoMemory>
    requires { kind ≡ Atom → ⊥ }
    ensures { IfOk result (λ ts. map pure_decl ts ≡ own_trees false kind (relation_dom [] no_exs (pure_doms parts.now))) }
{
    match kind {
        ReprKind::RelationAsMatrix => {
            let axes = axes_over(alloc, parts)?;
            flags(alloc, "_RelationAsMatrix", axes)
        }
        _ => Ok(Row::new(alloc)),
    }
}

/// Those of a partition: how many parts there are, and the part of each member.
fn of_partition(
    alloc: Global,
    out: CellUse,
    kind: ReprKind,
    member: &Dom,
) -> Result<Row<CellDecl>, NoMemory>
    requires { kind ≡ Atom → ⊥ }
    ensures { IfOk result (λ ts. map pure_decl ts ≡ own_trees (can_be_out out) kind (partition_dom [] no_exs (pure_dom member.now))) }
{
    match kind {
        ReprKind::PartitionOccurrence => {
            let parts = from_0_to(alloc, bound(alloc, member)?)?;
            let mut tables = table(
                alloc,
                "_PartitionOccurrence_NumParts",
                Row::new(alloc),
                parts,
            )?;
            let part = from_1_to(alloc, bound(alloc, member)?)?;
            let cell = widened_if(alloc, out, part)?;
            let axes = axis_alone(alloc, member)?;
            let mut more = table(alloc, "_PartitionOccurrence_WhichPart", axes, cell)?;
            tables.append(&mut more)?;
            Ok(tables)
        }
        _ => Ok(Row::new(alloc)),
    }
}
