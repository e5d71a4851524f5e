//! Values with positions.
ghost use Rattle.std.specs.Prelude.{◌≡◌, map, IfOk};
ghost use Rattle.ess_semantics.specs.Positions.{with_positions as positions_put};
ghost use Rattle.ess_core.specs.ValueViews.{pure_val, pure_field_val, pure_pair};
ghost use Rattle.ess_repr_positions.specs.Placed.{placed_val, placed_field, placed_pair};

use crate::shared::{both, number_of};
use ess_core::{FieldVal, NoMemory, Pair, Row, Val};
use std::alloc::Global;

/// The value with positions in place of the values of named types. `NoMemory` where there is no room for it, or a position lies above
/// the numbers of 64 bits.
#[cycle(placing)]
#[tactic(auto, using(crate::proofs::PlacedValues::kinds))]
pub fn with_positions(alloc: Global, val: &Val) -> Result<Val, NoMemory>
    ensures { IfOk result (λ v. pure_val v ≡ positions_put (pure_val val.now)) }
{
    match val {
        Val::Num(number) => Ok(Val::Num(*number)),
        Val::Truth(truth) => Ok(Val::Truth(*truth)),
        Val::Item(_, position) => Ok(Val::Num(number_of(*position)?)),
        Val::Tuple(vals) => match placed(alloc, vals.as_slice()) {
            Ok(vals) => Ok(Val::Tuple(vals)),
            Err(no) => Err(no),
        },
        Val::Rec(fields) => match placed_fields(alloc, fields.as_slice()) {
            Ok(fields) => Ok(Val::Rec(fields)),
            Err(no) => Err(no),
        },
        Val::Matrix(index, vals) => {
            let index = placed(alloc, index.as_slice());
            let (index, vals) = both(index, placed(alloc, vals.as_slice()))?;
            Ok(Val::Matrix(index, vals))
        }
        Val::Set(vals) => match placed(alloc, vals.as_slice()) {
            Ok(vals) => Ok(Val::Set(vals)),
            Err(no) => Err(no),
        },
        Val::MSet(vals) => match placed(alloc, vals.as_slice()) {
            Ok(vals) => Ok(Val::MSet(vals)),
            Err(no) => Err(no),
        },
        Val::Function(pairs) => match placed_pairs(alloc, pairs.as_slice()) {
            Ok(pairs) => Ok(Val::Function(pairs)),
            Err(no) => Err(no),
        },
        Val::Relation(vals) => match placed(alloc, vals.as_slice()) {
            Ok(vals) => Ok(Val::Relation(vals)),
            Err(no) => Err(no),
        },
        Val::Partition(vals) => match placed(alloc, vals.as_slice()) {
            Ok(vals) => Ok(Val::Partition(vals)),
            Err(no) => Err(no),
        },
    }
}

/// The same of each of several values.
#[cycle(placing)]
#[tactic(auto, using(crate::proofs::PlacedValues::vals_more, crate::proofs::PlacedValues::vals_all))]
fn placed(alloc: Global, vals: &[Val]) -> Result<Row<Val>, NoMemory>
    ensures { IfOk result (λ vs. map pure_val vs ≡ map placed_val vals.now) }
{
    let mut all = Row::with_capacity(alloc, vals.len())?;
    for val in vals {
        match with_positions(alloc, val) {
            Ok(val) => all.push(val)?,
            Err(no) => return Err(no),
        }
    }
    Ok(all)
}

/// The same of the values of fields.
#[cycle(placing)]
#[tactic(auto, using(crate::proofs::PlacedValues::fields_more, crate::proofs::PlacedValues::fields_all))]
fn placed_fields(alloc: Global, fields: &[FieldVal]) -> Result<Row<FieldVal>, NoMemory>
    ensures { IfOk result (λ fs. map pure_field_val fs ≡ map placed_field fields.now) }
{
    let mut all = Row::with_capacity(alloc, fields.len())?;
    for field in fields {
        match placed_one(alloc, field) {
            Ok(field) => all.push(field)?,
            Err(no) => return Err(no),
        }
    }
    Ok(all)
}

/// The same of a field's value.
#[cycle(placing)]
#[tactic(auto, using(crate::proofs::PlacedValues::field_placed))]
fn placed_one(alloc: Global, field: &FieldVal) -> Result<FieldVal, NoMemory>
    ensures { IfOk result (λ f. pure_field_val f ≡ placed_field field.now) }
{
    match both(field.name.copy(alloc), with_positions(alloc, &field.val)) {
        Ok((name, val)) => Ok(FieldVal { name, val }),
        Err(no) => Err(no),
    }
}

/// The same of pairs.
#[cycle(placing)]
#[tactic(auto, using(crate::proofs::PlacedValues::pairs_more, crate::proofs::PlacedValues::pairs_all))]
fn placed_pairs(alloc: Global, pairs: &[Pair]) -> Result<Row<Pair>, NoMemory>
    ensures { IfOk result (λ ps. map pure_pair ps ≡ map placed_pair pairs.now) }
{
    let mut all = Row::with_capacity(alloc, pairs.len())?;
    for pair in pairs {
        match placed_both(alloc, pair) {
            Ok(pair) => all.push(pair)?,
            Err(no) => return Err(no),
        }
    }
    Ok(all)
}

/// The same of a pair.
#[cycle(placing)]
#[tactic(auto, using(crate::proofs::PlacedValues::pair_placed))]
fn placed_both(alloc: Global, pair: &Pair) -> Result<Pair, NoMemory>
    ensures { IfOk result (λ p. pure_pair p ≡ placed_pair pair.now) }
{
    let from = with_positions(alloc, &pair.from);
    match both(from, with_positions(alloc, &pair.to)) {
        Ok((from, to)) => Ok(Pair { from, to }),
        Err(no) => Err(no),
    }
}
