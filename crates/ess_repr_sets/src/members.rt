ghost use Rattle.std.specs.Prelude.{◌≡◌, [], ◌∷◌, ◌++◌, if◌then◌else◌, None, Some, map, option_map, IfOk, OnOk};
ghost use Rattle.ess_semantics.specs.Tables.{truth_number, truth_of};
ghost use Rattle.ess_semantics.specs.Order.{same as are_same};
ghost use Rattle.ess_semantics.specs.Collections.{holds as is_held};
ghost use Rattle.ess_core.specs.ValueViews.{pure_val};
ghost use Rattle.ess_repr_rows_laws.specs.RowLayers.{picked as picked_of};

use ess_core::{NoMemory, Row, Val};
use ess_values::order;
use std::alloc::Global;
use std::cmp::Ordering;

/// Of each member whether it is among the items, as 1 or 0: the items of a table of the members that occur. `NoMemory` where
/// there is no room for them.
pub fn occurrences(alloc: Global, members: &[Val], items: &[Val]) -> Result<Row<i64>, NoMemory>
    ensures { IfOk result (λ r. r ≡ map (λ x. truth_number (is_held (map pure_val items.now) x)) (map pure_val members.now)) }
{
    let mut bits = Row::with_capacity(alloc, members.len())?;
    for member in members {
        bits.push(bit(holds(items, member)))?;
    }
    Ok(bits)
}

/// 1 for true, 0 for false.
fn bit(truth: bool) -> i64
    ensures { result ≡ truth_number truth }
{
    if truth { 1 } else { 0 }
}

/// Whether a value is in the list.
pub fn holds(items: &[Val], val: &Val) -> bool
    ensures { result ≡ is_held (map pure_val items.now) (pure_val val.now) }
{
    for item in items {
        if same(item, val) {
            return true;
        }
    }
    false
}

/// Whether two values are equal.
pub(crate) fn same(a: &Val, b: &Val) -> bool
    ensures { result ≡ are_same (pure_val a.now) (pure_val b.now) }
{
    order(a, b) == Ordering::Equal
}

/// Copies of the values whose flag is true, side by side with the flags as far as both go; nothing where a flag is no truth
/// value. `NoMemory` where there is no room for them.
#[tactic(auto, using(crate::proofs::PickedValues::picked_more, crate::proofs::PickedValues::picked_next))]
pub fn picked(alloc: Global, flags: &[i64], vals: &[Val]) -> Result<Option<Row<Val>>, NoMemory>
    ensures { IfOk result (λ o. option_map (map pure_val) o ≡ picked_of flags.now (map pure_val vals.now)) }
{
    let mut chosen = Row::new(alloc);
    for k in 0..flags.len() {
        if k >= vals.len() {
            return Ok(Some(chosen));
        }
        let flag = flags[k];
        let is_wrong = pick(alloc, &mut chosen, flag, &vals[k])?;
        if is_wrong {
            return Ok(None);
        }
    }
    Ok(Some(chosen))
}

/// Puts a copy of a value behind others where the flag is true. Whether the flag is no truth value. `NoMemory` where there is no
/// room for the copy.
fn pick(alloc: Global, chosen: &mut Row<Val>, flag: i64, val: &Val) -> Result<bool, NoMemory>
    ensures { IfOk result (λ b. option_map (λ t. if t then chosen.old ++ val.now ∷ [] else chosen.old) (truth_of flag) ≡ (if b then None else Some chosen.new)) }
{
    match flag {
        0 => Ok(false),
        1 => {
            add_copy(alloc, chosen, val)?;
            Ok(false)
        }
        _ => Ok(true),
    }
}

/// Puts a copy of a value behind others. `NoMemory` where there is no room for it.
pub(crate) fn add_copy(alloc: Global, row: &mut Row<Val>, val: &Val) -> Result<(), NoMemory>
    ensures { OnOk result (row.new ≡ row.old ++ val.now ∷ []) }
{
    match val.copy(alloc) {
        Ok(copy) => row.push(copy),
        Err(no) => Err(no),
    }
}
