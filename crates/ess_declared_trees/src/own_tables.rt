//! The tables that a layer has of its own.
ghost use Rattle.std.specs.Prelude.{◌≡◌, [], ◌∷◌, IfOk, codes, map};
ghost use Rattle.ess_semantics.specs.declared.words.ReprKind.TheVariants.{Atom, Occurrence, ExplicitVarSizeWithMarker, ExplicitVarSizeWithFlags, ExplicitVarSizeWithDummy, MSetOccurrence, MSetExplicitWithRepetition, MSetExplicitWithFlags, Function1DPartial, FunctionNDPartial, RelationAsMatrix, PartitionOccurrence};
ghost use Rattle.ess_core_nodes.specs.NodeViews.{pure_dom};
ghost use Rattle.ess_repr_laws.specs.StructureParts.{upto};
ghost use Rattle.ess_repr_declare_laws.specs.SizeTerms.{zero_ex, bound_ex};
ghost use Rattle.ess_repr_declare_laws.specs.DeclaredTrees as pure;
ghost use Rattle.ess_declared_trees.specs.TableViews.{pure_declared};

use crate::atoms::{cell_in_use, widened_if, with_dummy};
use crate::axes::{argument_axes, axes_over, one_axis, slot_axis};
use crate::domains::{from_zero, truths};
use crate::tables::{Declared, behind, one_table};
use ess_core::ReprKind;
use ess_core_nodes::NodeDom;
use ess_rows::{NoMemory, Row};
use ess_size_terms::{bound, occurrences, slots};
use ess_structure_terms::upto;
use std::alloc::Global;

/// The layer's own tables, with the ends of their names: none where the kind isn't one for the domain.
pub(crate) fn own_trees(
    alloc: Global,
    out: bool,
    kind: ReprKind,
    dom: &NodeDom,
) -> Result<Row<Declared>, NoMemory>
    ensures { IfOk result (λ ts. map pure_declared ts ≡ pure.own_trees out kind (pure_dom dom.now)) }
{
    match kind {
        ReprKind::Atom => atom(alloc, out, dom),
        ReprKind::Occurrence => occurrence(alloc, out, dom),
        ReprKind::ExplicitVarSizeWithMarker => marker(alloc, out, dom),
        ReprKind::ExplicitVarSizeWithFlags => flags(alloc, out, dom),
        ReprKind::ExplicitVarSizeWithDummy => slots_with_dummy(alloc, out, dom),
        ReprKind::MSetOccurrence => times(alloc, out, dom),
        ReprKind::MSetExplicitWithRepetition => repetition(alloc, out, dom),
        ReprKind::MSetExplicitWithFlags => slot_times(alloc, out, dom),
        ReprKind::Function1DPartial => function_flags(alloc, out, dom),
        ReprKind::FunctionNDPartial => tuple_flags(alloc, out, dom),
        ReprKind::RelationAsMatrix => matrix(alloc, out, dom),
        ReprKind::PartitionOccurrence => part_numbers(alloc, out, dom),
        _ => Ok(Row::new(alloc)),
    }
}

/// The cell of an atom.
fn atom(alloc: Global, out: bool, dom: &NodeDom) -> Result<Row<Declared>, NoMemory>
    ensures { IfOk result (λ ts. map pure_declared ts ≡ pure.own_trees out Atom (pure_dom dom.now)) }
{
    let cell = cell_in_use(alloc, out, dom)?;
    one_table(alloc, "", Row::new(alloc), cell)
}

/// Whether each member is in a set.
fn occurrence(alloc: Global, out: bool, dom: &NodeDom) -> Result<Row<Declared>, NoMemory>
    ensures { IfOk result (λ ts. map pure_declared ts ≡ pure.own_trees out Occurrence (pure_dom dom.now)) }
{
    match dom {
        NodeDom::Set(_, _, member) => {
            let axes = one_axis(alloc, member.get())?;
            let cell = truths(alloc)?;
            one_table(alloc, "_Occurrence", axes, cell)
        }
        _ => Ok(Row::new(alloc)),
    }
}

/// The number of a set's members.
fn marker(alloc: Global, out: bool, dom: &NodeDom) -> Result<Row<Declared>, NoMemory>
    ensures { IfOk result (λ ts. map pure_declared ts ≡ pure.own_trees out ExplicitVarSizeWithMarker (pure_dom dom.now)) }
{
    match dom {
        NodeDom::Set(_, _, _) => {
            let size = slots(alloc, dom)?;
            let cell = from_zero(alloc, size)?;
            one_table(
                alloc,
                "_ExplicitVarSizeWithMarker_Marker",
                Row::new(alloc),
                cell,
            )
        }
        _ => Ok(Row::new(alloc)),
    }
}

/// Whether each slot of a set is in use.
fn flags(alloc: Global, out: bool, dom: &NodeDom) -> Result<Row<Declared>, NoMemory>
    ensures { IfOk result (λ ts. map pure_declared ts ≡ pure.own_trees out ExplicitVarSizeWithFlags (pure_dom dom.now)) }
{
    match dom {
        NodeDom::Set(_, _, _) => {
            let axes = slot_axis(alloc, dom)?;
            let cell = truths(alloc)?;
            one_table(alloc, "_ExplicitVarSizeWithFlags_Flags", axes, cell)
        }
        _ => Ok(Row::new(alloc)),
    }
}

/// The members of a set in slots, or dummies.
fn slots_with_dummy(alloc: Global, out: bool, dom: &NodeDom) -> Result<Row<Declared>, NoMemory>
    ensures { IfOk result (λ ts. map pure_declared ts ≡ pure.own_trees out ExplicitVarSizeWithDummy (pure_dom dom.now)) }
{
    match dom {
        NodeDom::Set(_, _, member) => {
            let axes = slot_axis(alloc, dom)?;
            let cell = with_dummy(alloc, member.get())?;
            let cell = widened_if(alloc, out, cell)?;
            one_table(alloc, "_ExplicitVarSizeWithDummy", axes, cell)
        }
        _ => Ok(Row::new(alloc)),
    }
}

/// How often each member occurs in a multiset.
fn times(alloc: Global, out: bool, dom: &NodeDom) -> Result<Row<Declared>, NoMemory>
    ensures { IfOk result (λ ts. map pure_declared ts ≡ pure.own_trees out MSetOccurrence (pure_dom dom.now)) }
{
    match dom {
        NodeDom::MSet(marks, numbers, member) => {
            let axes = one_axis(alloc, member.get())?;
            let most = occurrences(alloc, marks.as_slice(), numbers.as_slice())?;
            let cell = from_zero(alloc, most)?;
            one_table(alloc, "_MSetOccurrence", axes, cell)
        }
        _ => Ok(Row::new(alloc)),
    }
}

/// The number of a multiset's members.
fn repetition(alloc: Global, out: bool, dom: &NodeDom) -> Result<Row<Declared>, NoMemory>
    ensures { IfOk result (λ ts. map pure_declared ts ≡ pure.own_trees out MSetExplicitWithRepetition (pure_dom dom.now)) }
{
    match dom {
        NodeDom::MSet(_, _, _) => {
            let size = slots(alloc, dom)?;
            let cell = from_zero(alloc, size)?;
            one_table(
                alloc,
                "_MSetExplicitWithRepetition_Marker",
                Row::new(alloc),
                cell,
            )
        }
        _ => Ok(Row::new(alloc)),
    }
}

/// How often the member in each slot of a multiset occurs.
fn slot_times(alloc: Global, out: bool, dom: &NodeDom) -> Result<Row<Declared>, NoMemory>
    ensures { IfOk result (λ ts. map pure_declared ts ≡ pure.own_trees out MSetExplicitWithFlags (pure_dom dom.now)) }
{
    match dom {
        NodeDom::MSet(marks, numbers, _) => {
            let axes = slot_axis(alloc, dom)?;
            let most = occurrences(alloc, marks.as_slice(), numbers.as_slice())?;
            let cell = from_zero(alloc, most)?;
            one_table(alloc, "_MSetExplicitWithFlags_Flags", axes, cell)
        }
        _ => Ok(Row::new(alloc)),
    }
}

/// Where a function is defined.
fn function_flags(alloc: Global, out: bool, dom: &NodeDom) -> Result<Row<Declared>, NoMemory>
    ensures { IfOk result (λ ts. map pure_declared ts ≡ pure.own_trees out Function1DPartial (pure_dom dom.now)) }
{
    match dom {
        NodeDom::Function(_, _, from, _) => {
            let axes = one_axis(alloc, from.get())?;
            let cell = truths(alloc)?;
            one_table(alloc, "_Function1DPartial_Flags", axes, cell)
        }
        _ => Ok(Row::new(alloc)),
    }
}

/// Where a function of tuples is defined.
fn tuple_flags(alloc: Global, out: bool, dom: &NodeDom) -> Result<Row<Declared>, NoMemory>
    ensures { IfOk result (λ ts. map pure_declared ts ≡ pure.own_trees out FunctionNDPartial (pure_dom dom.now)) }
{
    match dom {
        NodeDom::Function(_, _, from, _) => {
            let axes = argument_axes(alloc, from.get())?;
            let cell = truths(alloc)?;
            one_table(alloc, "_FunctionNDPartial_Flags", axes, cell)
        }
        _ => Ok(Row::new(alloc)),
    }
}

/// Which tuples are in a relation.
fn matrix(alloc: Global, out: bool, dom: &NodeDom) -> Result<Row<Declared>, NoMemory>
    ensures { IfOk result (λ ts. map pure_declared ts ≡ pure.own_trees out RelationAsMatrix (pure_dom dom.now)) }
{
    match dom {
        NodeDom::Relation(_, _, parts) => {
            let axes = axes_over(alloc, parts.as_slice())?;
            let cell = truths(alloc)?;
            one_table(alloc, "_RelationAsMatrix", axes, cell)
        }
        _ => Ok(Row::new(alloc)),
    }
}

/// The number of a partition's parts, and that of each member's part.
fn part_numbers(alloc: Global, out: bool, dom: &NodeDom) -> Result<Row<Declared>, NoMemory>
    ensures { IfOk result (λ ts. map pure_declared ts ≡ pure.own_trees out PartitionOccurrence (pure_dom dom.now)) }
{
    match dom {
        NodeDom::Partition(_, _, member) => {
            let count = part_count(alloc, member.get())?;
            let parts = member_parts(alloc, out, member.get())?;
            behind(count, parts)
        }
        _ => Ok(Row::new(alloc)),
    }
}

/// The number of parts of the members of a domain.
fn part_count(alloc: Global, member: &NodeDom) -> Result<Row<Declared>, NoMemory>
    ensures { IfOk result (λ ts. map pure_declared ts ≡ pure.decl (codes "_PartitionOccurrence_NumParts") []
        (pure.from_to zero_ex (bound_ex (pure_dom member.now))) ∷ []) }
{
    let most = bound(alloc, member)?;
    let cell = from_zero(alloc, most)?;
    one_table(
        alloc,
        "_PartitionOccurrence_NumParts",
        Row::new(alloc),
        cell,
    )
}

/// The number of the part of each member of a domain.
fn member_parts(alloc: Global, out: bool, member: &NodeDom) -> Result<Row<Declared>, NoMemory>
    ensures { IfOk result (λ ts. map pure_declared ts ≡ pure.decl (codes "_PartitionOccurrence_WhichPart")
        (pure.axis_dom (pure_dom member.now) ∷ []) (pure.widened_if out (upto (bound_ex (pure_dom member.now)))) ∷ []) }
{
    let axes = one_axis(alloc, member)?;
    let most = bound(alloc, member)?;
    let numbers = upto(alloc, most)?;
    let cell = widened_if(alloc, out, numbers)?;
    one_table(alloc, "_PartitionOccurrence_WhichPart", axes, cell)
}
