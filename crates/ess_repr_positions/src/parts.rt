//! Types put back into components, fields, pairs, tuples of relations and parts of partitions.
ghost use Rattle.std.specs.Prelude.{◌≡◌, map, option_map, IfOk};
ghost use Rattle.ess_semantics.specs.Lists.{each_of};
ghost use Rattle.ess_core.specs.ValueViews.{pure_val, pure_field_val, pure_pair};
ghost use Rattle.ess_repr_positions.specs.Typed.{each_both, val_typed, field_typed, pair_typed, tuple_typed, part_typed};

use crate::matrices::each_nested;
use crate::types::typed;
use ess_core::{FieldVal, NoMemory, Pair, Row, Val};
use ess_eval_domains::{Closed, FieldClosed};
use std::alloc::Global;

/// The components of a tuple.
#[cycle(typing)]
#[tactic(auto, using(crate::proofs::TypedLoops::each_turns, crate::proofs::Weights::lighter_part))]
pub(crate) fn each(
    alloc: Global,
    parts: &[Closed],
    vals: &[Val],
) -> Result<Option<Row<Val>>, NoMemory>
    ensures { IfOk result (λ o. option_map (map pure_val) o ≡ each_both val_typed parts.now vals.now) }
{
    if parts.len() != vals.len() {
        return Ok(None);
    }
    let mut all = Row::with_capacity(alloc, vals.len())?;
    for (i, part) in parts.iter().enumerate() {
        match typed(alloc, part, &vals[i])? {
            Some(val) => all.push(val)?,
            None => return Ok(None),
        }
    }
    Ok(Some(all))
}

/// The fields of a record.
#[cycle(typing)]
#[tactic(auto, using(crate::proofs::TypedLoops::field_turns, crate::proofs::Weights::lighter_field))]
pub(crate) fn each_field(
    alloc: Global,
    fields: &[FieldClosed],
    vals: &[FieldVal],
) -> Result<Option<Row<FieldVal>>, NoMemory>
    ensures { IfOk result (λ o. option_map (map pure_field_val) o ≡ each_both field_typed fields.now vals.now) }
{
    if fields.len() != vals.len() {
        return Ok(None);
    }
    let mut all = Row::with_capacity(alloc, vals.len())?;
    for (i, field) in fields.iter().enumerate() {
        match one_field(alloc, field, &vals[i])? {
            Some(val) => all.push(val)?,
            None => return Ok(None),
        }
    }
    Ok(Some(all))
}

/// A field.
#[cycle(typing)]
#[tactic(auto, using(crate::proofs::TypedLoops::field_there, crate::proofs::TypedLoops::field_not, crate::proofs::Weights::same_weight))]
fn one_field(
    alloc: Global,
    field: &FieldClosed,
    val: &FieldVal,
) -> Result<Option<FieldVal>, NoMemory>
    ensures { IfOk result (λ o. option_map pure_field_val o ≡ field_typed field.now val.now) }
{
    let name = val.name.copy(alloc)?;
    match typed(alloc, &field.domain, &val.val)? {
        Some(val) => Ok(Some(FieldVal { name, val })),
        None => Ok(None),
    }
}

/// The pairs of a function.
#[cycle(typing)]
#[tactic(auto, using(crate::proofs::TypedLoops::pair_turns))]
pub(crate) fn each_pair(
    alloc: Global,
    from: &Closed,
    to: &Closed,
    pairs: &[Pair],
) -> Result<Option<Row<Pair>>, NoMemory>
    ensures { IfOk result (λ o. option_map (map pure_pair) o ≡ each_of pairs.now (pair_typed from.now to.now)) }
{
    let mut all = Row::with_capacity(alloc, pairs.len())?;
    for pair in pairs {
        match one_pair(alloc, from, to, pair)? {
            Some(pair) => all.push(pair)?,
            None => return Ok(None),
        }
    }
    Ok(Some(all))
}

/// A pair.
#[cycle(typing)]
#[tactic(auto, using(crate::proofs::TypedLoops::pair_there, crate::proofs::TypedLoops::no_argument, crate::proofs::TypedLoops::no_value))]
fn one_pair(
    alloc: Global,
    from: &Closed,
    to: &Closed,
    pair: &Pair,
) -> Result<Option<Pair>, NoMemory>
    ensures { IfOk result (λ o. option_map pure_pair o ≡ pair_typed from.now to.now pair.now) }
{
    match typed(alloc, from, &pair.from)? {
        Some(from) => match typed(alloc, to, &pair.to) {
            Ok(found) => match found {
                Some(to) => Ok(Some(Pair { from, to })),
                None => {
                    drop(from);
                    Ok(None)
                }
            },
            Err(no) => {
                drop(from);
                Err(no)
            }
        },
        None => Ok(None),
    }
}

/// The tuples of a relation.
#[cycle(typing)]
#[tactic(auto, using(crate::proofs::TypedLoops::tuple_turns))]
pub(crate) fn each_tuple(
    alloc: Global,
    parts: &[Closed],
    tuples: &[Val],
) -> Result<Option<Row<Val>>, NoMemory>
    ensures { IfOk result (λ o. option_map (map pure_val) o ≡ each_of tuples.now (tuple_typed parts.now)) }
{
    let mut all = Row::with_capacity(alloc, tuples.len())?;
    for tuple in tuples {
        match one_tuple(alloc, parts, tuple)? {
            Some(tuple) => all.push(tuple)?,
            None => return Ok(None),
        }
    }
    Ok(Some(all))
}

/// A tuple; nothing where the value is none.
#[cycle(typing)]
#[tactic(auto, using(crate::proofs::TypedLoops::tuple_there, crate::proofs::TypedLoops::tuple_not))]
fn one_tuple(alloc: Global, parts: &[Closed], tuple: &Val) -> Result<Option<Val>, NoMemory>
    ensures { IfOk result (λ o. option_map pure_val o ≡ tuple_typed parts.now tuple.now) }
{
    match tuple {
        Val::Tuple(vals) => match each(alloc, parts, vals.as_slice())? {
            Some(vals) => Ok(Some(Val::Tuple(vals))),
            None => Ok(None),
        },
        _ => Ok(None),
    }
}

/// The parts of a partition.
#[cycle(typing)]
#[tactic(auto, using(crate::proofs::TypedLoops::part_turns))]
pub(crate) fn each_part(
    alloc: Global,
    member: &Closed,
    parts: &[Val],
) -> Result<Option<Row<Val>>, NoMemory>
    ensures { IfOk result (λ o. option_map (map pure_val) o ≡ each_of parts.now (part_typed member.now)) }
{
    let mut all = Row::with_capacity(alloc, parts.len())?;
    for part in parts {
        match one_part(alloc, member, part)? {
            Some(part) => all.push(part)?,
            None => return Ok(None),
        }
    }
    Ok(Some(all))
}

/// A part, which is a set; nothing where the value is none.
#[cycle(typing)]
#[tactic(auto, using(crate::proofs::TypedLoops::part_there, crate::proofs::TypedLoops::part_not))]
fn one_part(alloc: Global, member: &Closed, part: &Val) -> Result<Option<Val>, NoMemory>
    ensures { IfOk result (λ o. option_map pure_val o ≡ part_typed member.now part.now) }
{
    match part {
        Val::Set(vals) => match each_nested(alloc, &[], member, vals.as_slice())? {
            Some(vals) => Ok(Some(Val::Set(vals))),
            None => Ok(None),
        },
        _ => Ok(None),
    }
}
