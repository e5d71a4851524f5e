//! The type of a record literal: its fields in the order of their names.
ghost use Rattle.std.specs.Prelude.{◌≡◌, map, IfOk, OnOk};
ghost use Rattle.ess_semantics.specs.Lists.{zip};
ghost use Rattle.ess_semantics.specs.Names.{keys, by_name, insert_name};
ghost use Rattle.ess_semantics.specs.OperatorTypes.{record_ty};
ghost use Rattle.ess_core.specs.TypeViews.{pure_ty, pure_field_ty};
ghost use Rattle.ess_core.specs.TreeViews.{pure_field_ex};
ghost use Rattle.ess_types_operators.specs.Places.{place_in};

use ess_core::{Boxed, FieldEx, FieldTy, NoMemory, Row, Text, Ty};
use std::alloc::Global;
use std::cmp::Ordering;

/// The type of a record literal whose fields have these types. `NoMemory` where there is no room for it.
pub fn type_of_record(alloc: Global, fields: &[FieldEx], tys: &[Ty]) -> Result<Boxed<Ty>, NoMemory>
    ensures { IfOk result (λ t. pure_ty t ≡ record_ty (by_name (zip (keys (map pure_field_ex fields.now)) (map pure_ty tys.now)))) }
{
    let named = named_types(alloc, fields, tys)?;
    let sorted = by_names(alloc, named)?;
    Boxed::new(alloc, Ty::Rec(sorted))
}

/// The types side by side with the names of the fields, as far as both go.
#[tactic(auto, using(crate::proofs::RecordLemmas::zip_more, crate::proofs::RecordLemmas::zip_short, crate::proofs::RecordLemmas::zip_all))]
fn named_types(alloc: Global, fields: &[FieldEx], tys: &[Ty]) -> Result<Row<FieldTy>, NoMemory>
    ensures { IfOk result (λ r. map pure_field_ty r ≡ zip (keys (map pure_field_ex fields.now)) (map pure_ty tys.now)) }
{
    let mut named = Row::new(alloc);
    for (i, field) in fields.iter().enumerate() {
        if i >= tys.len() {
            return Ok(named);
        }
        named.push(named_type(alloc, &field.name, &tys[i])?.into_inner())?;
    }
    Ok(named)
}

/// A name with a copy of a type.
fn named_type(alloc: Global, name: &Text, ty: &Ty) -> Result<Boxed<FieldTy>, NoMemory>
    ensures { IfOk result (λ f. pure_field_ty f ≡ (name.now, pure_ty ty.now)) }
{
    let name = name.copy(alloc)?;
    match ty.copy(alloc) {
        Ok(ty) => Boxed::new(alloc, FieldTy { name, ty }),
        Err(no) => Err(no),
    }
}

/// The fields in the order of their names.
#[tactic(auto, using(crate::proofs::RecordLemmas::one_inserted, crate::proofs::RecordLemmas::all_by_name))]
fn by_names(alloc: Global, mut fields: Row<FieldTy>) -> Result<Row<FieldTy>, NoMemory>
    ensures { IfOk result (λ r. map pure_field_ty r ≡ by_name (map pure_field_ty fields)) }
{
    let mut sorted = Row::new(alloc);
    while let Some(field) = fields.pop() {
        insert_field(&mut sorted, field)?;
    }
    Ok(sorted)
}

/// Puts a field into its place.
#[tactic(auto, using(crate::proofs::RecordLemmas::place_within, crate::proofs::RecordLemmas::field_inserted))]
fn insert_field(sorted: &mut Row<FieldTy>, field: FieldTy) -> Result<(), NoMemory>
    ensures { OnOk result (map pure_field_ty sorted.new ≡ insert_name (pure_field_ty field) (map pure_field_ty sorted.old)) }
{
    let at = place_of(sorted.as_slice(), &field.name);
    sorted.insert(at, field)?;
    Ok(())
}

/// How many fields in front have names below this one.
#[tactic(auto, using(crate::proofs::RecordLemmas::place_more, crate::proofs::RecordLemmas::place_found))]
fn place_of(sorted: &[FieldTy], name: &Text) -> usize
    ensures { result ≡ place_in name.now (map pure_field_ty sorted.now) }
{
    for (i, field) in sorted.iter().enumerate() {
        if name.cmp(&field.name) != Ordering::Greater {
            return i;
        }
    }
    sorted.len()
}
