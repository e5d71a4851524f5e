ghost use Rattle.std.specs.Prelude.{◌≡◌, map, IfOk};
ghost use Rattle.ess_semantics.specs.Lists.{zip};
ghost use Rattle.ess_semantics.specs.Values.{of_list, tuple};
ghost use Rattle.ess_semantics.specs.Names.{keys};
ghost use Rattle.ess_core.specs.ValueViews.{record_value, pure_val, pure_field_val};
ghost use Rattle.ess_eval_domains.specs.ClosedViews.{pure_field_closed};
ghost use Rattle.ess_eval_domains.specs.FieldRecords.{records_with};

use crate::closed::FieldClosed;
use crate::products::lists_of;
use ess_core::{FieldVal, NoMemory, Row, Text, Val};
use std::alloc::Global;

/// Lists as tuples. `NoMemory` where there is no room for them.
#[tactic(auto, using(std::proofs::lemmas::List::map_push, ess_core::proofs::ValueEquations::pure_tuple))]
pub fn tuples(alloc: Global, lists: Row<Row<Val>>) -> Result<Row<Val>, NoMemory>
    ensures { IfOk result (λ r. map pure_val r ≡ map (λ l. tuple (of_list l)) (map (map pure_val) lists)) }
{
    let mut tuples = Row::with_capacity(alloc, lists.len())?;
    for list in lists.into_vec() {
        tuples.push(Val::Tuple(list))?;
    }
    Ok(tuples)
}

/// All records with these fields and one value from each of these lists. `NoMemory` where there is no room for them.
#[tactic(auto, using(crate::proofs::Listed::lists_records))]
pub fn all_records(
    alloc: Global,
    fields: &[FieldClosed],
    choices: &[Row<Val>],
) -> Result<Row<Val>, NoMemory>
    ensures { IfOk result (λ r. map pure_val r ≡ records_with (keys (map pure_field_closed fields.now)) (map (map pure_val) choices.now)) }
{
    let lists = lists_of(alloc, choices)?;
    Ok(records(alloc, fields, lists.as_slice())?)
}

/// Lists as records with these fields, as far as they go. `NoMemory` where there is no room for them.
#[tactic(auto, using(std::proofs::lemmas::List::map_more, std::proofs::lemmas::List::map_push, ess_core::proofs::ValueEquations::pure_rec))]
fn records(alloc: Global, fields: &[FieldClosed], lists: &[Row<Val>]) -> Result<Row<Val>, NoMemory>
    ensures { IfOk result (λ r. map pure_val r ≡ map (λ l. record_value (zip (keys (map pure_field_closed fields.now)) l)) (map (map pure_val) lists.now)) }
{
    let mut records = Row::with_capacity(alloc, lists.len())?;
    for list in lists {
        let own = record(alloc, fields, list.as_slice())?;
        records.push(Val::Rec(own))?;
    }
    Ok(records)
}

/// The fields of a record, as far as there are values. `NoMemory` where there is no room for them.
#[tactic(auto, using(crate::proofs::ListProducts::record_more, crate::proofs::ListProducts::record_short, crate::proofs::ListProducts::record_end))]
fn record(alloc: Global, fields: &[FieldClosed], list: &[Val]) -> Result<Row<FieldVal>, NoMemory>
    ensures { IfOk result (λ r. map pure_field_val r ≡ zip (keys (map pure_field_closed fields.now)) (map pure_val list.now)) }
{
    let mut row = Row::with_capacity(alloc, fields.len())?;
    for (i, field) in fields.iter().enumerate() {
        if i >= list.len() {
            return Ok(row);
        }
        row.push(field_value(alloc, &field.name, &list[i])?)?;
    }
    Ok(row)
}

/// A field with its value. `NoMemory` where there is no room for it.
fn field_value(alloc: Global, name: &Text, val: &Val) -> Result<FieldVal, NoMemory>
    ensures { IfOk result (λ f. pure_field_val f ≡ (name.now, pure_val val.now)) }
{
    let name = name.copy(alloc)?;
    match val.copy(alloc) {
        Ok(val) => Ok(FieldVal { name, val }),
        Err(no) => {
            drop(name);
            Err(no)
        }
    }
}
