//! The cells of a layer's own tables.
ghost use Rattle.std.specs.Prelude.{◌≡◌, [], ◌∷◌, IfOk, map, pos, ◌+ℤ◌, Some};
ghost use Rattle.ess_semantics.specs.Domains.{booleans, integers, named, sets, msets, functions, relations, partitions};
ghost use Rattle.ess_semantics.specs.SetLayers.{dummy_of, with_number};
ghost use Rattle.ess_eval_domains.specs.ClosedViews.{pure_closed, pure_closeds, pure_span, pure_attributes};
ghost use Rattle.eprime_eval_scalars.specs.Runs.{pure_run};
ghost use Rattle.eprime_eval.specs.ClosedDomains.{pure_closed as pure_cells};
ghost use Rattle.ess_translate_members_laws.specs.LayerCells.{own_cells as own_meant};
ghost use Rattle.ess_translate_cells.specs.OwnCells.{dummy_cells, high_alone, component_cells};

use crate::ranges::{from_to, one_to, runs_in, single, up_to, widened};
use eprime_eval::{Closed as CellDomain, Run};
use ess_core::{NoMemory, ReprKind, Row, Text};
use ess_eval_domains::{Attribute, Closed, Span};
use ess_repr_closed::{bound, mset_slots, occurrences, set_slots};
use std::alloc::Global;

/// The cells of each of the tables that the layer of a kind over a domain has of its own, where they can be out of use or not; none
/// where the kind is none for the domain. `NoMemory` where there is no room for them, or a number is too large.
#[tactic(auto, using(crate::proofs::OwnForms::no_cells))]
pub(crate) fn own_cells(
    alloc: Global,
    out: bool,
    kind: ReprKind,
    domain: &Closed,
) -> Result<Row<CellDomain>, NoMemory>
    ensures { IfOk result (λ r. map pure_cells r ≡ own_meant out kind (pure_closed domain.now)) }
{
    match domain {
        Closed::Bool => of_truth(alloc, out, kind),
        Closed::Int(spans) => of_int(alloc, out, kind, spans.as_slice()),
        Closed::Named(name, count) => of_named(alloc, out, kind, name, *count),
        Closed::Set(own, member) => of_set(alloc, out, kind, own.as_slice(), member.get()),
        Closed::MSet(own, member) => of_mset(alloc, out, kind, own.as_slice(), member.get()),
        Closed::Function(own, from, to) => {
            of_function(alloc, out, kind, own.as_slice(), from.get(), to.get())
        }
        Closed::Relation(own, parts) => {
            of_relation(alloc, out, kind, own.as_slice(), parts.as_slice())
        }
        Closed::Partition(own, member) => {
            of_partition(alloc, out, kind, own.as_slice(), member.get())
        }
        _ => Ok(Row::new(alloc)),
    }
}

/// That of a truth value.
fn of_truth(alloc: Global, out: bool, kind: ReprKind) -> Result<Row<CellDomain>, NoMemory>
    ensures { IfOk result (λ r. map pure_cells r ≡ own_meant out kind booleans) }
{
    match kind {
        ReprKind::Atom => truths(alloc),
        _ => Ok(Row::new(alloc)),
    }
}

/// One table of truth values.
fn truths(alloc: Global) -> Result<Row<CellDomain>, NoMemory>
    ensures { IfOk result (λ r. map pure_cells r ≡ booleans ∷ []) }
{
    Row::from_array(alloc, [CellDomain::Truths])
}

/// That of numbers.
#[tactic(auto, using(crate::proofs::OwnForms::cells_of_int))]
fn of_int(
    alloc: Global,
    out: bool,
    kind: ReprKind,
    spans: &[Span],
) -> Result<Row<CellDomain>, NoMemory>
    ensures { IfOk result (λ r. map pure_cells r ≡ own_meant out kind (integers (map pure_span spans.now))) }
{
    match kind {
        ReprKind::Atom => alone(alloc, widened(alloc, out, runs_in(alloc, spans)?)?),
        _ => Ok(Row::new(alloc)),
    }
}

/// That of a named type: its positions.
#[tactic(auto, using(crate::proofs::OwnForms::cells_of_named))]
fn of_named(
    alloc: Global,
    out: bool,
    kind: ReprKind,
    name: &Text,
    count: u64,
) -> Result<Row<CellDomain>, NoMemory>
    ensures { IfOk result (λ r. map pure_cells r ≡ own_meant out kind (named name.now count)) }
{
    match kind {
        ReprKind::Atom => alone(alloc, one_to(alloc, out, count)?),
        _ => Ok(Row::new(alloc)),
    }
}

/// Those of a set.
#[tactic(auto, using(crate::proofs::OwnForms::cells_of_dummy))]
fn of_set(
    alloc: Global,
    out: bool,
    kind: ReprKind,
    own: &[Attribute],
    member: &Closed,
) -> Result<Row<CellDomain>, NoMemory>
    ensures { IfOk result (λ r. map pure_cells r ≡ own_meant out kind (sets (pure_attributes own.now) (pure_closed member.now))) }
{
    match kind {
        ReprKind::Occurrence => truths(alloc),
        ReprKind::ExplicitVarSizeWithMarker => {
            alone(alloc, up_to(alloc, set_slots(alloc, own, member)? as u64)?)
        }
        ReprKind::ExplicitVarSizeWithFlags => truths(alloc),
        ReprKind::ExplicitVarSizeWithDummy => alone(alloc, with_dummy(alloc, out, member)?),
        _ => Ok(Row::new(alloc)),
    }
}

/// Those of a multiset.
fn of_mset(
    alloc: Global,
    out: bool,
    kind: ReprKind,
    own: &[Attribute],
    member: &Closed,
) -> Result<Row<CellDomain>, NoMemory>
    ensures { IfOk result (λ r. map pure_cells r ≡ own_meant out kind (msets (pure_attributes own.now) (pure_closed member.now))) }
{
    match kind {
        ReprKind::MSetOccurrence => alone(alloc, up_to(alloc, occurrences(own))?),
        ReprKind::MSetExplicitWithRepetition => {
            alone(alloc, up_to(alloc, mset_slots(alloc, own, member)? as u64)?)
        }
        ReprKind::MSetExplicitWithFlags => alone(alloc, up_to(alloc, occurrences(own))?),
        _ => Ok(Row::new(alloc)),
    }
}

/// Those of a function: flags.
#[tactic(auto, using(crate::proofs::OwnForms::cells_of_components))]
fn of_function(
    alloc: Global,
    out: bool,
    kind: ReprKind,
    own: &[Attribute],
    from: &Closed,
    to: &Closed,
) -> Result<Row<CellDomain>, NoMemory>
    ensures { IfOk result (λ r. map pure_cells r ≡ own_meant out kind
        (functions (pure_attributes own.now) (pure_closed from.now) (pure_closed to.now))) }
{
    match kind {
        ReprKind::Function1DPartial => truths(alloc),
        ReprKind::FunctionNDPartial => flags_of_components(alloc, from),
        _ => Ok(Row::new(alloc)),
    }
}

/// The flags of arguments that are tuples; none for any other domain.
fn flags_of_components(alloc: Global, domain: &Closed) -> Result<Row<CellDomain>, NoMemory>
    ensures { IfOk result (λ r. map pure_cells r ≡ component_cells (pure_closed domain.now)) }
{
    match domain {
        Closed::Tuple(_) => truths(alloc),
        _ => Ok(Row::new(alloc)),
    }
}

/// Those of a relation.
fn of_relation(
    alloc: Global,
    out: bool,
    kind: ReprKind,
    own: &[Attribute],
    parts: &[Closed],
) -> Result<Row<CellDomain>, NoMemory>
    ensures { IfOk result (λ r. map pure_cells r ≡ own_meant out kind (relations (pure_attributes own.now) (pure_closeds parts.now))) }
{
    match kind {
        ReprKind::RelationAsMatrix => truths(alloc),
        _ => Ok(Row::new(alloc)),
    }
}

/// Those of a partition: the number of parts, and the number of each member's part.
#[tactic(auto, using(crate::proofs::OwnForms::cells_of_parts))]
fn of_partition(
    alloc: Global,
    out: bool,
    kind: ReprKind,
    own: &[Attribute],
    member: &Closed,
) -> Result<Row<CellDomain>, NoMemory>
    ensures { IfOk result (λ r. map pure_cells r ≡ own_meant out kind (partitions (pure_attributes own.now) (pure_closed member.now))) }
{
    match kind {
        ReprKind::PartitionOccurrence => {
            let count = bound(alloc, member)? as u64;
            let parts = up_to(alloc, count)?;
            let numbers = one_to(alloc, out, count)?;
            both(alloc, parts, numbers)
        }
        _ => Ok(Row::new(alloc)),
    }
}

/// One table with these cells.
fn alone(alloc: Global, cells: CellDomain) -> Result<Row<CellDomain>, NoMemory>
    ensures { IfOk result (λ r. map pure_cells r ≡ pure_cells cells ∷ []) }
{
    Row::from_array(alloc, [cells])
}

/// Two tables with these cells.
fn both(alloc: Global, first: CellDomain, second: CellDomain) -> Result<Row<CellDomain>, NoMemory>
    ensures { IfOk result (λ r. map pure_cells r ≡ pure_cells first ∷ pure_cells second ∷ []) }
{
    Row::from_array(alloc, [first, second])
}

// ---- the dummy

/// The cells of slots that hold members of a domain or its dummy. `NoMemory` where the dummy is too large.
#[tactic(auto, using(crate::proofs::OwnForms::dummy_forms, crate::proofs::OwnForms::no_dummy))]
fn with_dummy(alloc: Global, out: bool, member: &Closed) -> Result<CellDomain, NoMemory>
    ensures { IfOk result (λ c. pure_cells c ≡ dummy_cells out (pure_closed member.now)) }
{
    match member {
        Closed::Bool => from_to(alloc, out, 0, 1),
        Closed::Int(spans) => widened(alloc, out, runs_and_dummy(alloc, spans.as_slice())?),
        Closed::Named(_, count) => widened(alloc, out, positions_and_dummy(alloc, *count)?),
        _ => from_to(alloc, false, 1, 0),
    }
}

/// Ranges as runs, with the number above them where there is one range that has a high end.
#[tactic(auto, using(crate::proofs::OwnForms::dummy_there, crate::proofs::OwnForms::dummy_nowhere))]
fn runs_and_dummy(alloc: Global, spans: &[Span]) -> Result<Row<Run>, NoMemory>
    ensures { IfOk result (λ r. integers (map pure_run r)
        ≡ with_number (dummy_of (integers (map pure_span spans.now))) (integers (map pure_span spans.now))) }
{
    let mut runs = runs_in(alloc, spans)?;
    if let Some(high) = only_high(spans) {
        runs.push(single(next(high)?))?;
    }
    Ok(runs)
}

/// The high end of an only range.
fn only_high(spans: &[Span]) -> Option<i64>
    ensures { result ≡ high_alone (map pure_span spans.now) }
{
    match spans.split_first() {
        Some((span, rest)) => { if rest.is_empty() { span.high } else { None } }
        None => None,
    }
}

/// One more. `NoMemory` where it is too large.
fn next(number: i64) -> Result<i64, NoMemory>
    ensures { IfOk result (λ n. n ≡ number +ℤ pos 1) }
{
    match number.checked_add(1) {
        Some(more) => Ok(more),
        None => Err(NoMemory),
    }
}

/// The positions of a named type, and the number above them. `NoMemory` where it is too large.
fn positions_and_dummy(alloc: Global, count: u64) -> Result<Row<Run>, NoMemory>
    ensures { IfOk result (λ r. map pure_run r ≡ record { low = Some (pos 1); high = Some (pos count) }
        ∷ record { low = Some (pos count +ℤ pos 1); high = Some (pos count +ℤ pos 1) } ∷ []) }
{
    match i64::try_from(count) {
        Ok(count) => {
            let run = Run {
                from: Some(1),
                to: Some(count),
            };
            Row::from_array(alloc, [run, single(next(count)?)])
        }
        Err(_) => Err(NoMemory),
    }
}
