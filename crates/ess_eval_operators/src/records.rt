ghost use Rattle.std.specs.Prelude.{◌≡◌, IfOk, OnOk, map, option_map};
ghost use Rattle.ess_semantics.specs.Lists.{zip};
ghost use Rattle.ess_semantics.specs.Trees.{record_literal};
ghost use Rattle.ess_semantics.specs.Names.{keys, by_name, insert_name};
ghost use Rattle.ess_semantics.specs.Operators.{value_of_node};
ghost use Rattle.ess_core.specs.ValueViews.{pure_val, pure_field_val};
ghost use Rattle.ess_core.specs.TreeViews.{pure_field_ex};
ghost use Rattle.ess_values.specs.Places.{place_in};

use crate::operands::all_present;
use ess_core::{FieldEx, FieldVal, NoMemory, Row, Text, Val};
use std::alloc::Global;
use std::cmp::Ordering;

/// The value of a record literal with these fields, whose values may not be there: then it has none. The fields stand in the
/// order of their names. `NoMemory` where there is no room for it.
pub fn record_value(
    alloc: Global,
    fields: &[FieldEx],
    vals: Row<Option<Val>>,
) -> Result<Option<Val>, NoMemory>
    ensures { IfOk result (λ o. option_map pure_val o
        ≡ value_of_node (record_literal (keys (map pure_field_ex fields.now))) (map (option_map pure_val) vals)) }
{
    match all_present(alloc, vals)? {
        Some(vals) => {
            let named = named_vals(alloc, fields, vals.as_slice())?;
            Ok(Some(Val::Rec(by_names(alloc, named)?)))
        }
        None => Ok(None),
    }
}

/// The values with the names of the fields, as far as both lists go. `NoMemory` where there is no room for them.
#[tactic(auto, using(crate::proofs::RecordFields::zip_ended))]
fn named_vals(alloc: Global, fields: &[FieldEx], vals: &[Val]) -> Result<Row<FieldVal>, NoMemory>
    ensures { IfOk result (λ r. map pure_field_val r ≡ zip (keys (map pure_field_ex fields.now)) (map pure_val vals.now)) }
{
    let mut named = Row::new(alloc);
    for (i, field) in fields.iter().enumerate() {
        if i >= vals.len() {
            return Ok(named);
        }
        let name = field.name.copy(alloc)?;
        match vals[i].copy(alloc) {
            Ok(val) => named.push(FieldVal { name, val })?,
            Err(no) => return Err(no),
        }
    }
    Ok(named)
}

/// The fields in the order of their names. `NoMemory` where there is no room for them.
#[tactic(auto, using(crate::proofs::RecordFields::one_inserted, crate::proofs::RecordFields::all_by_name))]
fn by_names(alloc: Global, mut fields: Row<FieldVal>) -> Result<Row<FieldVal>, NoMemory>
    ensures { IfOk result (λ r. map pure_field_val r ≡ by_name (map pure_field_val fields)) }
{
    let mut sorted = Row::new(alloc);
    while let Some(field) = fields.pop() {
        insert_field(&mut sorted, field)?;
    }
    Ok(sorted)
}

/// Puts a field into its place. `NoMemory` where there is no room for it.
#[tactic(auto, using(crate::proofs::RecordFields::place_within, crate::proofs::RecordFields::put_at_place))]
fn insert_field(sorted: &mut Row<FieldVal>, field: FieldVal) -> Result<(), NoMemory>
    ensures { OnOk result (map pure_field_val sorted.new ≡ insert_name (pure_field_val field) (map pure_field_val sorted.old)) }
{
    let at = place_of(sorted.as_slice(), &field);
    sorted.insert(at, field)
}

/// How many fields in front have names below that of this field.
#[tactic(auto, using(crate::proofs::RecordFields::place_more, crate::proofs::RecordFields::place_found))]
fn place_of(sorted: &[FieldVal], field: &FieldVal) -> usize
    ensures { result ≡ place_in (pure_field_val field.now).0 (map pure_field_val sorted.now) }
{
    for (i, other) in sorted.iter().enumerate() {
        if field.name.cmp(&other.name) != Ordering::Greater {
            return i;
        }
    }
    sorted.len()
}
