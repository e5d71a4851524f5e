//! Rows of domains, and of ranges, attributes and fields of domains, resolved.
ghost use Rattle.std.specs.Prelude.{◌≡◌, map, option_map, IfOk, OnOk};
ghost use Rattle.ess_semantics.specs.Kinds.{doms_of};
ghost use Rattle.ess_semantics.specs.Names.{keys};
ghost use Rattle.ess_semantics.specs.Resolving.{resolve, resolve_exs, resolve_doms};
ghost use Rattle.ess_core.specs.TreeViews.{pure_ex, pure_doms, pure_range, pure_attr, pure_field_dom, words_of, within, exs_of, field_values};
ghost use Rattle.ess_types_names.specs.Tables.{pure_table};
ghost use Rattle.ess_types_resolving.specs.Parts.{resolved_with, resolved_field_dom};

use crate::domains::resolve_dom;
use crate::expressions::resolve_typed;
use ess_core::{Attr, Boxed, Dom, Ex, FieldDom, NoMemory, Range, Row};
use ess_types_names::TypeTable;
use std::alloc::Global;

/// Domains, resolved.
#[cycle(resolve)]
#[tactic(auto, using(crate::proofs::Items::doms_more, crate::proofs::Items::doms_all))]
pub(crate) fn resolve_doms(
    alloc: Global,
    doms: &[Dom],
    table: &mut TypeTable,
) -> Result<Row<Dom>, NoMemory>
    ensures ok { IfOk result (λ r. pure_doms r ≡ resolve_doms (pure_doms doms.now) (pure_table table.old)) }
    ensures kept { OnOk result (table.new ≡ table.old) }
{
    let mut resolved = Row::new(alloc);
    for dom in doms {
        let item = resolve_dom(alloc, dom, table)?;
        resolved.push(item.into_inner())?;
    }
    Ok(resolved)
}

/// The fields of a record's domain, resolved.
#[cycle(resolve)]
#[tactic(auto, using(crate::proofs::Items::dom_fields_more, crate::proofs::Items::dom_fields_all, crate::proofs::Items::dom_field_names_more, crate::proofs::Items::dom_field_names_all))]
pub(crate) fn resolve_dom_fields(
    alloc: Global,
    fields: &[FieldDom],
    table: &mut TypeTable,
) -> Result<Row<FieldDom>, NoMemory>
    ensures names { IfOk result (λ r. keys (map pure_field_dom r) ≡ keys (map pure_field_dom fields.now)) }
    ensures doms { IfOk result (λ r. doms_of (field_values (map pure_field_dom r))
        ≡ resolve_doms (doms_of (field_values (map pure_field_dom fields.now))) (pure_table table.old)) }
    ensures kept { OnOk result (table.new ≡ table.old) }
{
    let mut resolved = Row::new(alloc);
    for field in fields {
        let item = resolve_dom_field(alloc, field, table)?;
        resolved.push(item.into_inner())?;
    }
    Ok(resolved)
}

/// A field of a record's domain, resolved.
#[cycle(resolve)]
#[tactic(auto, using(ess_core::proofs::PartEquations::pure_field_dom_is))]
fn resolve_dom_field(
    alloc: Global,
    field: &FieldDom,
    table: &mut TypeTable,
) -> Result<Boxed<FieldDom>, NoMemory>
    ensures ok { IfOk result (λ f. pure_field_dom f ≡ resolved_field_dom (pure_field_dom field.now) (pure_table table.old)) }
    ensures kept { OnOk result (table.new ≡ table.old) }
{
    let dom = resolve_dom(alloc, &field.dom, table)?;
    let name = field.name.copy(alloc)?;
    let dom = dom.into_inner();
    Boxed::new(alloc, FieldDom { name, dom })
}

/// The ranges of an int domain, resolved.
#[cycle(resolve)]
#[tactic(auto, using(crate::proofs::Items::ranges_more, crate::proofs::Items::ranges_all, crate::proofs::Items::range_words_more, crate::proofs::Items::range_words_all))]
pub(crate) fn resolve_ranges(
    alloc: Global,
    ranges: &[Range],
    table: &mut TypeTable,
) -> Result<Row<Range>, NoMemory>
    ensures words { IfOk result (λ r. words_of (map pure_range r) ≡ words_of (map pure_range ranges.now)) }
    ensures inside { IfOk result (λ r. exs_of (within (map pure_range r))
        ≡ resolve_exs (exs_of (within (map pure_range ranges.now))) (pure_table table.old)) }
    ensures kept { OnOk result (table.new ≡ table.old) }
{
    let mut resolved = Row::new(alloc);
    for range in ranges {
        let item = resolve_range(alloc, range, table)?;
        resolved.push(item.into_inner())?;
    }
    Ok(resolved)
}

/// A range, resolved.
#[cycle(resolve)]
#[tactic(auto, using(ess_core::proofs::PartEquations::pure_range_one, ess_core::proofs::PartEquations::pure_range_span, crate::proofs::Items::span_resolved))]
fn resolve_range(
    alloc: Global,
    range: &Range,
    table: &mut TypeTable,
) -> Result<Boxed<Range>, NoMemory>
    ensures ok { IfOk result (λ r. pure_range r ≡ resolved_with (pure_range range.now) (pure_table table.old)) }
    ensures kept { OnOk result (table.new ≡ table.old) }
{
    match range {
        Range::One(ex) => {
            let (ex, ty) = resolve_typed(alloc, ex, table)?;
            drop(ty);
            Boxed::new(alloc, Range::One(ex.into_inner()))
        }
        Range::Span(low, high) => {
            let low = resolve_maybe(alloc, low, table)?;
            let high = resolve_maybe(alloc, high, table)?;
            Boxed::new(alloc, Range::Span(unboxed(low), unboxed(high)))
        }
    }
}

/// The attributes of a domain, resolved.
#[cycle(resolve)]
#[tactic(auto, using(crate::proofs::Items::attrs_more, crate::proofs::Items::attrs_all, crate::proofs::Items::attr_words_more, crate::proofs::Items::attr_words_all))]
pub(crate) fn resolve_attrs(
    alloc: Global,
    attrs: &[Attr],
    table: &mut TypeTable,
) -> Result<Row<Attr>, NoMemory>
    ensures words { IfOk result (λ r. words_of (map pure_attr r) ≡ words_of (map pure_attr attrs.now)) }
    ensures inside { IfOk result (λ r. exs_of (within (map pure_attr r))
        ≡ resolve_exs (exs_of (within (map pure_attr attrs.now))) (pure_table table.old)) }
    ensures kept { OnOk result (table.new ≡ table.old) }
{
    let mut resolved = Row::new(alloc);
    for attr in attrs {
        let item = resolve_attr(alloc, attr, table)?;
        resolved.push(item.into_inner())?;
    }
    Ok(resolved)
}

/// An attribute of a domain, resolved.
#[cycle(resolve)]
#[tactic(auto, using(ess_core::proofs::PartEquations::pure_attr_is, crate::proofs::Items::attribute_resolved))]
fn resolve_attr(alloc: Global, attr: &Attr, table: &mut TypeTable) -> Result<Boxed<Attr>, NoMemory>
    ensures ok { IfOk result (λ r. pure_attr r ≡ resolved_with (pure_attr attr.now) (pure_table table.old)) }
    ensures kept { OnOk result (table.new ≡ table.old) }
{
    let value = unboxed(resolve_maybe(alloc, &attr.value, table)?);
    let key = attr.key;
    Boxed::new(alloc, Attr { key, value })
}

/// An expression, where there is one, resolved.
#[cycle(resolve)]
fn resolve_maybe(
    alloc: Global,
    ex: &Option<Ex>,
    table: &mut TypeTable,
) -> Result<Option<Boxed<Ex>>, NoMemory>
    ensures ok { IfOk result (λ o. option_map pure_ex o ≡ option_map (λ e. resolve (pure_ex e) (pure_table table.old)) ex.now) }
    ensures kept { OnOk result (table.new ≡ table.old) }
{
    match ex {
        Some(ex) => {
            let (resolved, ty) = resolve_typed(alloc, ex, table)?;
            drop(ty);
            Ok(Some(resolved))
        }
        None => Ok(None),
    }
}

/// The expression without its box.
fn unboxed(ex: Option<Boxed<Ex>>) -> Option<Ex>
    ensures { result ≡ ex }
{
    match ex {
        Some(ex) => Some(ex.into_inner()),
        None => None,
    }
}
