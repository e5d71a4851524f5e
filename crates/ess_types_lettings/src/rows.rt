//! Lettings put into rows of expressions.
ghost use Rattle.std.specs.Prelude.{◌≡◌, true, map, option_map, IfOk, OnOk};
ghost use Rattle.ess_semantics.specs.Lists.{all_some};
ghost use Rattle.ess_semantics.specs.Names.{keys};
ghost use Rattle.ess_semantics.specs.Typing.{type_of, types_of};
ghost use Rattle.ess_semantics.specs.Lettings.{put_ex, put_exs};
ghost use Rattle.ess_core.specs.TypeViews.{pure_ty};
ghost use Rattle.ess_core.specs.TreeViews.{pure_ex, pure_exs, pure_pair_ex, pure_field_ex, exs_of, field_values};
ghost use Rattle.ess_types_names.specs.Tables.{pure_table};
ghost use Rattle.ess_types_scopes.specs.Kept.{pure_lettings};
ghost use Rattle.ess_types_lettings.specs.Putting.{put_field};

use crate::expressions::put_typed;
use ess_core::{Boxed, Ex, FieldEx, NoMemory, PairEx, Row, Text, Ty};
use ess_types_names::TypeTable;
use ess_types_nodes::{pair_node, with_type};
use ess_types_scopes::Lettings;
use std::alloc::Global;

/// Expressions with lettings put in, and their types where they are asked and each has one.
#[cycle(put)]
pub(crate) fn put_exs(
    alloc: Global,
    exs: &[Ex],
    asked: bool,
    lettings: &Lettings,
    table: &mut TypeTable,
) -> Result<(Row<Ex>, Option<Row<Ty>>), NoMemory>
    ensures ok { IfOk result (λ r. pure_exs r.0 ≡ put_exs (pure_exs exs.now) (pure_lettings lettings.now) (pure_table table.old)) }
    ensures types { IfOk result (λ r. asked ≡ true
        → option_map (map pure_ty) r.1 ≡ all_some (types_of (pure_exs r.0) (pure_table table.old))) }
    ensures kept { OnOk result (table.new ≡ table.old) }
{
    Ok(each_ex(alloc, exs, asked, lettings, table)?)
}

/// Expressions with lettings put in, one by one.
#[cycle(put)]
fn each_ex(
    alloc: Global,
    exs: &[Ex],
    asked: bool,
    lettings: &Lettings,
    table: &mut TypeTable,
) -> Result<(Row<Ex>, Option<Row<Ty>>), NoMemory>
    ensures ok { IfOk result (λ r. map pure_ex r.0
        ≡ map (λ e. put_ex (pure_ex e) (pure_lettings lettings.now) (pure_table table.old)) exs.now) }
    ensures types { IfOk result (λ r. asked ≡ true
        → option_map (map pure_ty) r.1 ≡ all_some (types_of (exs_of (map pure_ex r.0)) (pure_table table.old))) }
    ensures kept { OnOk result (table.new ≡ table.old) }
{
    let mut puts = Row::with_capacity(alloc, exs.len())?;
    let mut tys = Some(Row::new(alloc));
    for ex in exs {
        let (put, ty) = put_typed(alloc, ex, asked, lettings, table)?;
        puts.push(put.into_inner())?;
        tys = with_type(tys, ty)?;
    }
    Ok((puts, tys))
}

/// The pairs of a function literal with lettings put in, and their types where they are asked and each has one.
#[cycle(put)]
pub(crate) fn put_pairs(
    alloc: Global,
    pairs: &[PairEx],
    asked: bool,
    lettings: &Lettings,
    table: &mut TypeTable,
) -> Result<(Row<PairEx>, Option<Row<Ty>>), NoMemory>
    ensures ok { IfOk result (λ r. exs_of (map pure_pair_ex r.0)
        ≡ put_exs (exs_of (map pure_pair_ex pairs.now)) (pure_lettings lettings.now) (pure_table table.old)) }
    ensures types { IfOk result (λ r. asked ≡ true
        → option_map (map pure_ty) r.1 ≡ all_some (types_of (exs_of (map pure_pair_ex r.0)) (pure_table table.old))) }
    ensures kept { OnOk result (table.new ≡ table.old) }
{
    Ok(each_pair(alloc, pairs, asked, lettings, table)?)
}

/// The pairs of a function literal with lettings put in, one by one.
#[cycle(put)]
fn each_pair(
    alloc: Global,
    pairs: &[PairEx],
    asked: bool,
    lettings: &Lettings,
    table: &mut TypeTable,
) -> Result<(Row<PairEx>, Option<Row<Ty>>), NoMemory>
    ensures ok { IfOk result (λ r. map pure_pair_ex r.0
        ≡ map (λ p. put_ex (pure_pair_ex p) (pure_lettings lettings.now) (pure_table table.old)) pairs.now) }
    ensures types { IfOk result (λ r. asked ≡ true
        → option_map (map pure_ty) r.1 ≡ all_some (types_of (exs_of (map pure_pair_ex r.0)) (pure_table table.old))) }
    ensures kept { OnOk result (table.new ≡ table.old) }
{
    let mut puts = Row::with_capacity(alloc, pairs.len())?;
    let mut tys = Some(Row::new(alloc));
    for pair in pairs {
        let (put, ty) = put_pair(alloc, pair, asked, lettings, table)?;
        puts.push(put.into_inner())?;
        tys = with_type(tys, ty)?;
    }
    Ok((puts, tys))
}

/// A pair of a function literal with lettings put in, and its type where it is asked.
#[cycle(put)]
#[tactic(auto, using(ess_core::proofs::PartEquations::pure_pair_ex_is))]
fn put_pair(
    alloc: Global,
    pair: &PairEx,
    asked: bool,
    lettings: &Lettings,
    table: &mut TypeTable,
) -> Result<(Boxed<PairEx>, Option<Boxed<Ty>>), NoMemory>
    ensures ok { IfOk result (λ p. pure_pair_ex p.0 ≡ put_ex (pure_pair_ex pair.now) (pure_lettings lettings.now) (pure_table table.old)) }
    ensures types { IfOk result (λ p. asked ≡ true → option_map pure_ty p.1 ≡ type_of (pure_pair_ex p.0) (pure_table table.old)) }
    ensures kept { OnOk result (table.new ≡ table.old) }
{
    let from = put_typed(alloc, &pair.from, asked, lettings, table)?;
    let to = put_typed(alloc, &pair.to, asked, lettings, table)?;
    pair_node(alloc, from, to)
}

/// The fields of a record literal with lettings put in, and the types of their values where they are asked and each has one.
#[cycle(put)]
pub(crate) fn put_fields(
    alloc: Global,
    fields: &[FieldEx],
    asked: bool,
    lettings: &Lettings,
    table: &mut TypeTable,
) -> Result<(Row<FieldEx>, Option<Row<Ty>>), NoMemory>
    ensures names { IfOk result (λ r. keys (map pure_field_ex r.0) ≡ keys (map pure_field_ex fields.now)) }
    ensures ok { IfOk result (λ r. exs_of (field_values (map pure_field_ex r.0))
        ≡ put_exs (exs_of (field_values (map pure_field_ex fields.now))) (pure_lettings lettings.now) (pure_table table.old)) }
    ensures types { IfOk result (λ r. asked ≡ true
        → option_map (map pure_ty) r.1 ≡ all_some (types_of (exs_of (field_values (map pure_field_ex r.0))) (pure_table table.old))) }
    ensures kept { OnOk result (table.new ≡ table.old) }
{
    Ok(each_field(alloc, fields, asked, lettings, table)?)
}

/// The fields of a record literal with lettings put in, one by one.
#[cycle(put)]
fn each_field(
    alloc: Global,
    fields: &[FieldEx],
    asked: bool,
    lettings: &Lettings,
    table: &mut TypeTable,
) -> Result<(Row<FieldEx>, Option<Row<Ty>>), NoMemory>
    ensures ok { IfOk result (λ r. map pure_field_ex r.0
        ≡ map (λ f. put_field (pure_field_ex f) (pure_lettings lettings.now) (pure_table table.old)) fields.now) }
    ensures types { IfOk result (λ r. asked ≡ true
        → option_map (map pure_ty) r.1 ≡ all_some (types_of (exs_of (field_values (map pure_field_ex r.0))) (pure_table table.old))) }
    ensures kept { OnOk result (table.new ≡ table.old) }
{
    let mut puts = Row::with_capacity(alloc, fields.len())?;
    let mut tys = Some(Row::new(alloc));
    for field in fields {
        let (put, ty) = put_field(alloc, field, asked, lettings, table)?;
        puts.push(put.into_inner())?;
        tys = with_type(tys, ty)?;
    }
    Ok((puts, tys))
}

/// A field of a record literal with lettings put in, and the type of its value where it is asked.
#[cycle(put)]
#[tactic(auto, using(ess_core::proofs::PartEquations::pure_field_ex_is))]
fn put_field(
    alloc: Global,
    field: &FieldEx,
    asked: bool,
    lettings: &Lettings,
    table: &mut TypeTable,
) -> Result<(Boxed<FieldEx>, Option<Boxed<Ty>>), NoMemory>
    ensures ok { IfOk result (λ f. pure_field_ex f.0
        ≡ put_field (pure_field_ex field.now) (pure_lettings lettings.now) (pure_table table.old)) }
    ensures types { IfOk result (λ f. asked ≡ true → option_map pure_ty f.1 ≡ type_of (pure_field_ex f.0).1 (pure_table table.old)) }
    ensures kept { OnOk result (table.new ≡ table.old) }
{
    let (ex, ty) = put_typed(alloc, &field.ex, asked, lettings, table)?;
    let name = field.name.copy(alloc)?;
    let ex = ex.into_inner();
    let field = Boxed::new(alloc, FieldEx { name, ex })?;
    Ok((field, ty))
}

/// Copies of texts.
pub(crate) fn copied_texts(alloc: Global, texts: &[Text]) -> Result<Row<Text>, NoMemory>
    ensures { IfOk result (λ r. r ≡ texts.now) }
{
    let mut copies = Row::with_capacity(alloc, texts.len())?;
    for text in texts {
        copies.push(text.copy(alloc)?)?;
    }
    Ok(copies)
}
