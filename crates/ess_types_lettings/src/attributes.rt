//! Lettings put into the attributes of a domain.
ghost use Rattle.std.specs.Prelude.{◌≡◌, map, IfOk, OnOk};
ghost use Rattle.ess_semantics.specs.Lettings.{put_exs};
ghost use Rattle.ess_core.specs.TreeViews.{words_of, within, exs_of, pure_attr};
ghost use Rattle.ess_types_names.specs.Tables.{pure_table};
ghost use Rattle.ess_types_scopes.specs.Kept.{pure_lettings};
ghost use Rattle.ess_types_lettings.specs.Putting.{put_with};

use crate::ranges::{put_maybe, taken_out};
use ess_core::{Attr, Boxed, NoMemory, Row};
use ess_types_names::TypeTable;
use ess_types_scopes::Lettings;
use std::alloc::Global;

/// Attributes with lettings put in.
#[cycle(put)]
pub(crate) fn put_attrs(
    alloc: Global,
    attrs: &[Attr],
    lettings: &Lettings,
    table: &mut TypeTable,
) -> Result<Row<Attr>, NoMemory>
    ensures words { IfOk result (λ r. words_of (map pure_attr r) ≡ words_of (map pure_attr attrs.now)) }
    ensures ok { IfOk result (λ r. exs_of (within (map pure_attr r))
        ≡ put_exs (exs_of (within (map pure_attr attrs.now))) (pure_lettings lettings.now) (pure_table table.old)) }
    ensures kept { OnOk result (table.new ≡ table.old) }
{
    Ok(each_attr(alloc, attrs, lettings, table)?)
}

/// Attributes with lettings put in, one by one.
#[cycle(put)]
fn each_attr(
    alloc: Global,
    attrs: &[Attr],
    lettings: &Lettings,
    table: &mut TypeTable,
) -> Result<Row<Attr>, NoMemory>
    ensures ok { IfOk result (λ r. map pure_attr r
        ≡ map (λ x. put_with (pure_attr x) (pure_lettings lettings.now) (pure_table table.old)) attrs.now) }
    ensures kept { OnOk result (table.new ≡ table.old) }
{
    let mut puts = Row::with_capacity(alloc, attrs.len())?;
    for attr in attrs {
        puts.push(put_attr(alloc, attr, lettings, table)?.into_inner())?;
    }
    Ok(puts)
}

/// An attribute with lettings put in.
#[cycle(put)]
#[tactic(auto, using(crate::proofs::Putting::attribute_put, ess_core::proofs::PartEquations::pure_attr_is))]
fn put_attr(
    alloc: Global,
    attr: &Attr,
    lettings: &Lettings,
    table: &mut TypeTable,
) -> Result<Boxed<Attr>, NoMemory>
    ensures ok { IfOk result (λ a. pure_attr a ≡ put_with (pure_attr attr.now) (pure_lettings lettings.now) (pure_table table.old)) }
    ensures kept { OnOk result (table.new ≡ table.old) }
{
    let value = put_maybe(alloc, &attr.value, lettings, table)?;
    let value = taken_out(value);
    Boxed::new(
        alloc,
        Attr {
            key: attr.key,
            value,
        },
    )
}
