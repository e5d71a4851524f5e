//! Tuples and records made of their components.
ghost use Rattle.std.specs.Prelude.{◌≡◌, length, map, option_map, IfOk};
ghost use Rattle.ess_semantics.specs.Lists.{zip};
ghost use Rattle.ess_semantics.specs.Names.{keys};
ghost use Rattle.ess_core.specs.ValueViews.{pure_val, pure_field_val};
ghost use Rattle.ess_eval_domains.specs.ClosedViews.{pure_closed, pure_field_closed};
ghost use Rattle.ess_repr_layers_laws.specs.Components.{compound_of, component_count};

use ess_core::{FieldVal, NoMemory, Row, Text, Val};
use ess_eval_domains::{Closed, FieldClosed};
use std::alloc::Global;

/// The tuple or record of these components, which are as many as the domain has; nothing for any other domain. `NoMemory` where there
/// is no room for it.
#[tactic(auto, using(crate::proofs::CompoundValues::tuple_made, crate::proofs::CompoundValues::record_made))]
pub(crate) fn compound(
    alloc: Global,
    domain: &Closed,
    vals: Row<Val>,
) -> Result<Option<Val>, NoMemory>
    ensures { IfOk result (λ o. component_count (pure_closed domain.now) ≡ length (map pure_val vals) →
        option_map pure_val o ≡ compound_of (pure_closed domain.now) (map pure_val vals)) }
{
    match domain {
        Closed::Tuple(_) => Ok(Some(Val::Tuple(vals))),
        Closed::Rec(fields) => {
            let row = with_names(alloc, fields.as_slice(), vals.as_slice())?;
            Ok(Some(Val::Rec(row)))
        }
        Closed::Bool => Ok(None),
        Closed::Int(_) => Ok(None),
        Closed::Named(_, _) => Ok(None),
        Closed::Matrix(_, _) => Ok(None),
        Closed::Set(_, _) => Ok(None),
        Closed::MSet(_, _) => Ok(None),
        Closed::Function(_, _, _) => Ok(None),
        Closed::Relation(_, _) => Ok(None),
        Closed::Partition(_, _) => Ok(None),
    }
}

/// Copies of values with the names of fields, as far as both go.
#[tactic(auto, using(ess_eval_domains::proofs::ListProducts::record_more, ess_eval_domains::proofs::ListProducts::record_short, ess_eval_domains::proofs::ListProducts::record_end))]
fn with_names(
    alloc: Global,
    fields: &[FieldClosed],
    vals: &[Val],
) -> Result<Row<FieldVal>, NoMemory>
    ensures { IfOk result (λ r. map pure_field_val r ≡ zip (keys (map pure_field_closed fields.now)) (map pure_val vals.now)) }
{
    let mut row = Row::with_capacity(alloc, fields.len())?;
    for (i, field) in fields.iter().enumerate() {
        if i >= vals.len() {
            return Ok(row);
        }
        row.push(field_value(alloc, &field.name, &vals[i])?)?;
    }
    Ok(row)
}

/// A field with its value. `NoMemory` where there is no room for it.
fn field_value(alloc: Global, name: &Text, val: &Val) -> Result<FieldVal, NoMemory>
    ensures { IfOk result (λ f. pure_field_val f ≡ (name.now, pure_val val.now)) }
{
    let name = name.copy(alloc)?;
    match val.copy(alloc) {
        Ok(val) => Ok(FieldVal { name, val }),
        Err(no) => {
            drop(name);
            Err(no)
        }
    }
}
