//! The types of records, by the names of their fields and the types of these.
ghost use Rattle.std.specs.Prelude.{◌≡◌, map, IfOk, OnOk};
ghost use Rattle.ess_semantics.specs.Lists.{zip};
ghost use Rattle.ess_semantics.specs.Values.{a_record};
ghost use Rattle.ess_semantics.specs.Names.{by_name, insert_name};
ghost use Rattle.ess_semantics.specs.Types.{compound};
ghost use Rattle.ess_semantics.specs.OperatorTypes.{record_ty};
ghost use Rattle.ess_core.specs.TypeViews.{pure_ty, pure_tys, pure_field_ty};
ghost use Rattle.ess_types_operators.specs.Places.{place_in};

use ess_core::{FieldTy, Ty};
use ess_rows::{Boxed, NoMemory, Row, Text};
use std::alloc::Global;
use std::cmp::Ordering;

/// The type of records with these names and types, side by side. `NoMemory` where there is no room for it, and where there aren't
/// as many names as types.
#[tactic(auto, using(crate::proofs::FieldTypes::as_many))]
pub(crate) fn record_type(alloc: Global, names: &[Text], tys: &[Ty]) -> Result<Boxed<Ty>, NoMemory>
    ensures { IfOk result (λ t. pure_ty t ≡ compound (a_record names.now) (pure_tys tys.now)) }
{
    if names.len() != tys.len() {
        return Err(NoMemory);
    }
    let named = named_types(alloc, names, tys)?;
    Boxed::new(alloc, Ty::Rec(named))
}

/// The type of a record literal whose fields have these names and types. `NoMemory` where there is no room for it.
pub(crate) fn type_of_record(
    alloc: Global,
    names: &[Text],
    tys: &[Ty],
) -> Result<Boxed<Ty>, NoMemory>
    ensures { IfOk result (λ t. pure_ty t ≡ record_ty (by_name (zip names.now (map pure_ty tys.now)))) }
{
    let named = named_types(alloc, names, tys)?;
    let sorted = by_names(alloc, named)?;
    Boxed::new(alloc, Ty::Rec(sorted))
}

/// The types side by side with the names of the fields, as far as both go.
#[tactic(auto, using(crate::proofs::FieldTypes::zip_more, crate::proofs::FieldTypes::zip_short, crate::proofs::FieldTypes::zip_all))]
fn named_types(alloc: Global, names: &[Text], tys: &[Ty]) -> Result<Row<FieldTy>, NoMemory>
    ensures { IfOk result (λ r. map pure_field_ty r ≡ zip names.now (map pure_ty tys.now)) }
{
    let mut named = Row::new(alloc);
    for (i, name) in names.iter().enumerate() {
        if i >= tys.len() {
            return Ok(named);
        }
        named.push(named_type(alloc, name, &tys[i])?.into_inner())?;
    }
    Ok(named)
}

/// A name with a copy of a type.
fn named_type(alloc: Global, name: &Text, ty: &Ty) -> Result<Boxed<FieldTy>, NoMemory>
    ensures { IfOk result (λ f. pure_field_ty f ≡ (name.now, pure_ty ty.now)) }
{
    let name = name.copy(alloc)?;
    match ty.copy(alloc) {
        Ok(ty) => Boxed::new(alloc, FieldTy { name, ty }),
        Err(no) => Err(no),
    }
}

/// The fields in the order of their names.
#[tactic(auto, using(ess_types_operators::proofs::RecordLemmas::one_inserted, ess_types_operators::proofs::RecordLemmas::all_by_name))]
fn by_names(alloc: Global, mut fields: Row<FieldTy>) -> Result<Row<FieldTy>, NoMemory>
    ensures { IfOk result (λ r. map pure_field_ty r ≡ by_name (map pure_field_ty fields)) }
{
    let mut sorted = Row::new(alloc);
    while let Some(field) = fields.pop() {
        insert_field(&mut sorted, field)?;
    }
    Ok(sorted)
}

/// Puts a field into its place.
#[tactic(auto, using(ess_types_operators::proofs::RecordLemmas::place_within, ess_types_operators::proofs::RecordLemmas::field_inserted))]
fn insert_field(sorted: &mut Row<FieldTy>, field: FieldTy) -> Result<(), NoMemory>
    ensures { OnOk result (map pure_field_ty sorted.new ≡ insert_name (pure_field_ty field) (map pure_field_ty sorted.old)) }
{
    let at = place_of(sorted.as_slice(), &field.name);
    sorted.insert(at, field)?;
    Ok(())
}

/// How many fields in front have names below this one.
#[tactic(auto, using(ess_types_operators::proofs::RecordLemmas::place_more, ess_types_operators::proofs::RecordLemmas::place_found))]
fn place_of(sorted: &[FieldTy], name: &Text) -> usize
    ensures { result ≡ place_in name.now (map pure_field_ty sorted.now) }
{
    for (i, field) in sorted.iter().enumerate() {
        if name.cmp(&field.name) != Ordering::Greater {
            return i;
        }
    }
    sorted.len()
}
