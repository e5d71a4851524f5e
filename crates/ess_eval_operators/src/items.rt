ghost use Rattle.std.specs.Prelude.{◌≡◌, IfOk, map};
ghost use Rattle.ess_semantics.specs.Values.{items_of as the_items};
ghost use Rattle.ess_core.specs.ValueViews.{pure_val, pure_pair, pure_field_val};
ghost use Rattle.ess_eval_operators.specs.Items.{spare_items, items_or};

use ess_core::{FieldVal, NoMemory, Pair, Row, Val};
use std::alloc::Global;

/// What a generator over the value runs over, as copies: the items of a matrix, the members, pairs, tuples or parts of any
/// other compound value. `NoMemory` where there is no room for them.
#[tactic(auto, using(crate::proofs::ItemLists::listed_items))]
pub fn items_of(alloc: Global, val: &Val) -> Result<Row<Val>, NoMemory>
    ensures { IfOk result (λ r. map pure_val r ≡ the_items (pure_val val.now)) }
{
    let spare = spare(alloc, val)?;
    copies(alloc, listed(val, spare.as_slice()))
}

/// Copies of values. `NoMemory` where there is no room for them.
pub(crate) fn copies(alloc: Global, items: &[Val]) -> Result<Row<Val>, NoMemory>
    ensures { IfOk result (λ r. r ≡ items.now) }
{
    let mut copies = Row::with_capacity(alloc, items.len())?;
    for item in items {
        match item.copy(alloc) {
            Ok(copy) => copies.push(copy)?,
            Err(no) => return Err(no),
        }
    }
    Ok(copies)
}

/// The items of a record or function as values; none of any other value, which needs no room. `NoMemory` where there is no
/// room for them.
#[tactic(auto, using(crate::proofs::ItemLists::kept_items))]
pub(crate) fn spare(alloc: Global, val: &Val) -> Result<Row<Val>, NoMemory>
    ensures { IfOk result (λ r. map pure_val r ≡ spare_items (pure_val val.now)) }
{
    match val {
        Val::Function(pairs) => tuples_of(alloc, pairs.as_slice()),
        Val::Rec(fields) => vals_of(alloc, fields.as_slice()),
        _ => Ok(Row::new(alloc)),
    }
}

/// The items of a value that keeps them as values, else the spare ones.
#[tactic(auto, using(crate::proofs::ItemLists::kept_items))]
pub(crate) fn listed<'a>(val: &'a Val, spare: &'a [Val]) -> &'a [Val]
    ensures { map pure_val result.now ≡ items_or (map pure_val spare.now) (pure_val val.now) }
{
    match val {
        Val::Tuple(items) => items.as_slice(),
        Val::Matrix(_, items) => items.as_slice(),
        Val::Set(members) => members.as_slice(),
        Val::MSet(members) => members.as_slice(),
        Val::Relation(tuples) => tuples.as_slice(),
        Val::Partition(parts) => parts.as_slice(),
        Val::Function(_) => spare,
        Val::Rec(_) => spare,
        Val::Num(_) => spare,
        Val::Truth(_) => spare,
        Val::Item(_, _) => spare,
    }
}

/// The pairs of a function as tuples. `NoMemory` where there is no room for them.
pub(crate) fn tuples_of(alloc: Global, pairs: &[Pair]) -> Result<Row<Val>, NoMemory>
    ensures { IfOk result (λ r. map pure_val r ≡ map pure_pair pairs.now) }
{
    let mut tuples = Row::with_capacity(alloc, pairs.len())?;
    for pair in pairs {
        tuples.push(tuple_of(alloc, pair)?)?;
    }
    Ok(tuples)
}

/// A pair as a tuple. `NoMemory` where there is no room for it.
#[tactic(auto, using(crate::proofs::ItemLists::items))]
fn tuple_of(alloc: Global, pair: &Pair) -> Result<Val, NoMemory>
    ensures { IfOk result (λ v. pure_val v ≡ pure_pair pair.now) }
{
    let mut parts = Row::with_capacity(alloc, 2)?;
    parts.push(pair.from.copy(alloc)?)?;
    parts.push(pair.to.copy(alloc)?)?;
    Ok(Val::Tuple(parts))
}

/// The values of fields. `NoMemory` where there is no room for them.
#[tactic(auto, using(crate::proofs::ItemLists::items))]
fn vals_of(alloc: Global, fields: &[FieldVal]) -> Result<Row<Val>, NoMemory>
    ensures { IfOk result (λ r. map pure_val r ≡ map (λ f. f.1) (map pure_field_val fields.now)) }
{
    let mut vals = Row::with_capacity(alloc, fields.len())?;
    for field in fields {
        match field.val.copy(alloc) {
            Ok(copy) => vals.push(copy)?,
            Err(no) => return Err(no),
        }
    }
    Ok(vals)
}
