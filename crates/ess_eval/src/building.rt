ghost use Rattle.std.specs.Prelude.{◌≡◌, IfOk, map, false, length, option_map};
ghost use Rattle.ess_semantics.specs.Lists.{and_then};
ghost use Rattle.ess_semantics.specs.Names.{keys};
ghost use Rattle.ess_semantics.specs.Meaning.{named_domain, type_entry};
ghost use Rattle.ess_semantics.specs.Domains.{integers, tuples, matrices, sets, msets, functions, relations, partitions};
ghost use Rattle.ess_core.specs.TableViews.{pure_type_entries};
ghost use Rattle.ess_eval_domains.specs.ClosedViews.{pure_closed, pure_closeds, pure_field_closed, pure_attributes, pure_span, record_domain};

use crate::names::entry_of;
use crate::risen::Risen;
use ess_core::{Boxed, NoMemory, Row, Text};
use ess_eval_domains::{Attribute, Closed, FieldClosed, Span};
use std::alloc::Global;

/// Numbers in ranges.
pub(crate) fn integers_of(
    alloc: Global,
    spans: Option<Row<Span>>,
) -> Result<Option<Boxed<Closed>>, NoMemory>
    ensures { IfOk result (λ o. option_map pure_closed o ≡ option_map integers (option_map (map pure_span) spans)) }
{
    match spans {
        Some(spans) => Ok(Some(Boxed::new(alloc, Closed::Int(spans))?)),
        None => Ok(None),
    }
}

/// A named type.
pub(crate) fn named_of(
    alloc: Global,
    name: &Text,
    env: &Risen,
) -> Result<Option<Boxed<Closed>>, NoMemory>
    ensures { IfOk result (λ o. option_map pure_closed o ≡ named_domain false name.now (type_entry (pure_type_entries env.now.types) name.now)) }
{
    match entry_of(env, name) {
        Some(entry) => {
            let copy = name.copy(alloc)?;
            Ok(Some(Boxed::new(alloc, Closed::Named(copy, entry.count))?))
        }
        None => Ok(None),
    }
}

/// Tuples.
pub(crate) fn tuples_of(
    alloc: Global,
    parts: Option<Row<Closed>>,
) -> Result<Option<Boxed<Closed>>, NoMemory>
    ensures { IfOk result (λ o. option_map pure_closed o ≡ option_map tuples (option_map pure_closeds parts)) }
{
    match parts {
        Some(parts) => Ok(Some(Boxed::new(alloc, Closed::Tuple(parts))?)),
        None => Ok(None),
    }
}

/// Records.
pub(crate) fn records_of(
    alloc: Global,
    fields: Option<Row<FieldClosed>>,
) -> Result<Option<Boxed<Closed>>, NoMemory>
    ensures { IfOk result (λ o. option_map pure_closed o ≡ option_map (λ fs. record_domain (map pure_field_closed fs)) fields) }
{
    match fields {
        Some(fields) => Ok(Some(Boxed::new(alloc, Closed::Rec(fields))?)),
        None => Ok(None),
    }
}

/// Matrices.
pub(crate) fn matrices_of(
    alloc: Global,
    axes: Option<Row<Closed>>,
    item: Option<Boxed<Closed>>,
) -> Result<Option<Boxed<Closed>>, NoMemory>
    ensures { IfOk result (λ o. option_map pure_closed o ≡ and_then (option_map pure_closeds axes) (λ js. option_map (matrices js) (option_map pure_closed item))) }
{
    match (axes, item) {
        (Some(axes), Some(item)) => Ok(Some(Boxed::new(alloc, Closed::Matrix(axes, item))?)),
        (_, _) => Ok(None),
    }
}

/// Sets.
pub(crate) fn sets_of(
    alloc: Global,
    own: Option<Row<Attribute>>,
    member: Option<Boxed<Closed>>,
) -> Result<Option<Boxed<Closed>>, NoMemory>
    ensures { IfOk result (λ o. option_map pure_closed o ≡ and_then (option_map pure_attributes own) (λ ks. option_map (sets ks) (option_map pure_closed member))) }
{
    match (own, member) {
        (Some(own), Some(member)) => Ok(Some(Boxed::new(alloc, Closed::Set(own, member))?)),
        (_, _) => Ok(None),
    }
}

/// Multisets.
pub(crate) fn msets_of(
    alloc: Global,
    own: Option<Row<Attribute>>,
    member: Option<Boxed<Closed>>,
) -> Result<Option<Boxed<Closed>>, NoMemory>
    ensures { IfOk result (λ o. option_map pure_closed o ≡ and_then (option_map pure_attributes own) (λ ks. option_map (msets ks) (option_map pure_closed member))) }
{
    match (own, member) {
        (Some(own), Some(member)) => Ok(Some(Boxed::new(alloc, Closed::MSet(own, member))?)),
        (_, _) => Ok(None),
    }
}

/// Functions.
pub(crate) fn functions_of(
    alloc: Global,
    own: Option<Row<Attribute>>,
    from: Option<Boxed<Closed>>,
    to: Option<Boxed<Closed>>,
) -> Result<Option<Boxed<Closed>>, NoMemory>
    ensures { IfOk result (λ o. option_map pure_closed o ≡ and_then (option_map pure_attributes own) (λ ks. and_then (option_map pure_closed from) (λ x. option_map (functions ks x) (option_map pure_closed to)))) }
{
    match (own, from, to) {
        (Some(own), Some(from), Some(to)) => Ok(Some(Boxed::new(
            alloc,
            Closed::Function(own, from, to),
        )?)),
        (_, _, _) => Ok(None),
    }
}

/// Relations.
pub(crate) fn relations_of(
    alloc: Global,
    own: Option<Row<Attribute>>,
    parts: Option<Row<Closed>>,
) -> Result<Option<Boxed<Closed>>, NoMemory>
    ensures { IfOk result (λ o. option_map pure_closed o ≡ and_then (option_map pure_attributes own) (λ ks. option_map (relations ks) (option_map pure_closeds parts))) }
{
    match (own, parts) {
        (Some(own), Some(parts)) => Ok(Some(Boxed::new(alloc, Closed::Relation(own, parts))?)),
        (_, _) => Ok(None),
    }
}

/// Partitions.
pub(crate) fn partitions_of(
    alloc: Global,
    own: Option<Row<Attribute>>,
    member: Option<Boxed<Closed>>,
) -> Result<Option<Boxed<Closed>>, NoMemory>
    ensures { IfOk result (λ o. option_map pure_closed o ≡ and_then (option_map pure_attributes own) (λ ks. option_map (partitions ks) (option_map pure_closed member))) }
{
    match (own, member) {
        (Some(own), Some(member)) => Ok(Some(Boxed::new(alloc, Closed::Partition(own, member))?)),
        (_, _) => Ok(None),
    }
}
