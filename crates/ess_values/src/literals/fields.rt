ghost use Rattle.std.specs.Prelude.{◌≡◌, map, option_map, IfOk, OnOk};
ghost use Rattle.ess_semantics.specs.Lists.{and_then};
ghost use Rattle.ess_semantics.specs.Names.{keys, by_name, insert_name, is_among, all_distinct};
ghost use Rattle.ess_semantics.specs.Operators.{record_value};
ghost use Rattle.ess_semantics.specs.OperatorTypes.{record_ty};
ghost use Rattle.ess_values.specs.TypedLiterals.{typed_record};
ghost use Rattle.ess_values.specs.Places.{place_in};
ghost use Rattle.ess_values.specs.Literals.{pure_literal, pure_field, pure_fields};

use super::parts::{Field, Literal};
use crate::naming::same_name;
use crate::shapes::{Kind, Shape};
use ess_core::{Boxed, FieldVal, NoMemory, Row, Text, Val};
use std::alloc::Global;
use std::cmp::Ordering;

/// A record literal, where no field stands twice: its fields stand in the order of their names.
pub fn record(alloc: Global, fields: Option<Row<Field>>) -> Result<Option<Literal>, NoMemory>
    ensures { IfOk result (λ o. option_map pure_literal o ≡ and_then (option_map pure_fields fields) typed_record) }
{
    let Some(fields) = fields else {
        return Ok(None);
    };
    if !are_distinct(fields.as_slice()) {
        return Ok(None);
    }
    let fields = by_names(alloc, fields)?;
    Ok(Some(record_of(alloc, fields)?))
}

/// Whether no name stands twice.
fn are_distinct(fields: &[Field]) -> bool
    ensures { result ≡ all_distinct (keys (pure_fields fields.now)) }
{
    for (i, field) in fields.iter().enumerate() {
        if is_name_among(&fields[i + 1..], &field.name) {
            return false;
        }
    }
    true
}

/// Whether a field has this name.
fn is_name_among(fields: &[Field], name: &Text) -> bool
    ensures { result ≡ is_among (keys (pure_fields fields.now)) name.now }
{
    for field in fields {
        if same_name(&field.name, name) {
            return true;
        }
    }
    false
}

/// The fields in the order of their names.
#[tactic(auto, using(crate::proofs::FieldLemmas::one_inserted, crate::proofs::FieldLemmas::all_by_name))]
fn by_names(alloc: Global, mut fields: Row<Field>) -> Result<Row<Field>, NoMemory>
    ensures { IfOk result (λ r. pure_fields r ≡ by_name (pure_fields fields)) }
{
    let mut sorted = Row::new(alloc);
    while let Some(field) = fields.pop() {
        insert_field(&mut sorted, field)?;
    }
    Ok(sorted)
}

/// Puts a field into its place.
#[tactic(auto, using(crate::proofs::FieldLemmas::place_within, crate::proofs::FieldLemmas::field_inserted))]
fn insert_field(sorted: &mut Row<Field>, field: Field) -> Result<(), NoMemory>
    ensures { OnOk result (pure_fields sorted.new ≡ insert_name (pure_field field) (pure_fields sorted.old)) }
{
    let at = place_of(sorted.as_slice(), &field.name);
    sorted.insert(at, field)?;
    Ok(())
}

/// How many fields in front have names below this one.
#[tactic(auto, using(crate::proofs::FieldLemmas::place_more, crate::proofs::FieldLemmas::place_found))]
fn place_of(sorted: &[Field], name: &Text) -> usize
    ensures { result ≡ place_in name.now (pure_fields sorted.now) }
{
    for (i, field) in sorted.iter().enumerate() {
        if name.cmp(&field.name) != Ordering::Greater {
            return i;
        }
    }
    sorted.len()
}

/// The record with these fields.
fn record_of(alloc: Global, mut fields: Row<Field>) -> Result<Literal, NoMemory>
    ensures { IfOk result (λ l. pure_literal l ≡ (record_ty (map (λ f. (f.0, f.1.0)) (pure_fields fields)), record_value (map (λ f. (f.0, f.1.1)) (pure_fields fields)))) }
{
    let mut names = Row::new(alloc);
    let mut shapes = Row::new(alloc);
    let mut vals = Row::new(alloc);
    for field in fields.into_vec() {
        names.push(field.name.copy(alloc)?)?;
        shapes.push(field.shape.into_inner())?;
        vals.push(FieldVal {
            name: field.name,
            val: field.val.into_inner(),
        })?;
    }
    Ok(Literal {
        shape: Boxed::new(alloc, Shape::Node(Kind::Rec(names), shapes))?,
        val: Boxed::new(alloc, Val::Rec(vals))?,
    })
}
