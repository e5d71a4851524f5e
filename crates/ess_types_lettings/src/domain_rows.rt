//! Lettings put into rows of domains.
ghost use Rattle.std.specs.Prelude.{◌≡◌, map, IfOk, OnOk};
ghost use Rattle.ess_semantics.specs.Names.{keys};
ghost use Rattle.ess_semantics.specs.Kinds.{doms_of};
ghost use Rattle.ess_semantics.specs.Lettings.{put_dom, put_doms};
ghost use Rattle.ess_core.specs.TreeViews.{pure_dom, pure_doms, pure_field_dom, field_values};
ghost use Rattle.ess_types_names.specs.Tables.{pure_table};
ghost use Rattle.ess_types_scopes.specs.Kept.{pure_lettings};
ghost use Rattle.ess_types_lettings.specs.Putting.{put_field_dom};

use crate::domains::put_dom;
use ess_core::{Boxed, Dom, FieldDom, NoMemory, Row};
use ess_types_names::TypeTable;
use ess_types_scopes::Lettings;
use std::alloc::Global;

/// Domains with lettings put in.
#[cycle(put)]
pub(crate) fn put_doms(
    alloc: Global,
    doms: &[Dom],
    lettings: &Lettings,
    table: &mut TypeTable,
) -> Result<Row<Dom>, NoMemory>
    ensures ok { IfOk result (λ r. pure_doms r ≡ put_doms (pure_doms doms.now) (pure_lettings lettings.now) (pure_table table.old)) }
    ensures kept { OnOk result (table.new ≡ table.old) }
{
    Ok(each_dom(alloc, doms, lettings, table)?)
}

/// Domains with lettings put in, one by one.
#[cycle(put)]
fn each_dom(
    alloc: Global,
    doms: &[Dom],
    lettings: &Lettings,
    table: &mut TypeTable,
) -> Result<Row<Dom>, NoMemory>
    ensures ok { IfOk result (λ r. map pure_dom r
        ≡ map (λ d. put_dom (pure_dom d) (pure_lettings lettings.now) (pure_table table.old)) doms.now) }
    ensures kept { OnOk result (table.new ≡ table.old) }
{
    let mut puts = Row::with_capacity(alloc, doms.len())?;
    for dom in doms {
        puts.push(put_dom(alloc, dom, lettings, table)?.into_inner())?;
    }
    Ok(puts)
}

/// The fields of a record's domain with lettings put in.
#[cycle(put)]
pub(crate) fn put_record(
    alloc: Global,
    fields: &[FieldDom],
    lettings: &Lettings,
    table: &mut TypeTable,
) -> Result<Row<FieldDom>, NoMemory>
    ensures names { IfOk result (λ r. keys (map pure_field_dom r) ≡ keys (map pure_field_dom fields.now)) }
    ensures ok { IfOk result (λ r. doms_of (field_values (map pure_field_dom r))
        ≡ put_doms (doms_of (field_values (map pure_field_dom fields.now))) (pure_lettings lettings.now) (pure_table table.old)) }
    ensures kept { OnOk result (table.new ≡ table.old) }
{
    Ok(each_field_dom(alloc, fields, lettings, table)?)
}

/// The fields of a record's domain with lettings put in, one by one.
#[cycle(put)]
fn each_field_dom(
    alloc: Global,
    fields: &[FieldDom],
    lettings: &Lettings,
    table: &mut TypeTable,
) -> Result<Row<FieldDom>, NoMemory>
    ensures ok { IfOk result (λ r. map pure_field_dom r
        ≡ map (λ f. put_field_dom (pure_field_dom f) (pure_lettings lettings.now) (pure_table table.old)) fields.now) }
    ensures kept { OnOk result (table.new ≡ table.old) }
{
    let mut puts = Row::with_capacity(alloc, fields.len())?;
    for field in fields {
        puts.push(put_field_dom(alloc, field, lettings, table)?.into_inner())?;
    }
    Ok(puts)
}

/// A field of a record's domain with lettings put in.
#[cycle(put)]
#[tactic(auto, using(ess_core::proofs::PartEquations::pure_field_dom_is))]
fn put_field_dom(
    alloc: Global,
    field: &FieldDom,
    lettings: &Lettings,
    table: &mut TypeTable,
) -> Result<Boxed<FieldDom>, NoMemory>
    ensures ok { IfOk result (λ f. pure_field_dom f
        ≡ put_field_dom (pure_field_dom field.now) (pure_lettings lettings.now) (pure_table table.old)) }
    ensures kept { OnOk result (table.new ≡ table.old) }
{
    let dom = put_dom(alloc, &field.dom, lettings, table)?;
    let name = field.name.copy(alloc)?;
    let dom = dom.into_inner();
    Boxed::new(alloc, FieldDom { name, dom })
}
