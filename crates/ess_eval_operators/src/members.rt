ghost use Rattle.std.specs.Prelude.{◌≡◌, IfOk, map, filter, not, nat_le};
ghost use Rattle.std.specs.List.{list_all};
ghost use Rattle.ess_semantics.specs.Collections.{holds as is_held, count as the_count, sorted_once as the_sorted_once, sorted as the_sorted};
ghost use Rattle.ess_core.specs.ValueViews.{pure_val};

use crate::comparisons::same;
use ess_core::{NoMemory, Row, Val};
use ess_values::{mset_of, set_of};
use std::alloc::Global;

/// Whether a value is in the list.
pub(crate) fn holds(items: &[Val], val: &Val) -> bool
    ensures { result ≡ is_held (map pure_val items.now) (pure_val val.now) }
{
    for item in items {
        if same(item, val) {
            return true;
        }
    }
    false
}

/// How often a value is in the list.
pub(crate) fn count(items: &[Val], val: &Val) -> usize
    ensures { result ≡ the_count (map pure_val items.now) (pure_val val.now) }
{
    let mut found: usize = 0;
    for item in items {
        if same(item, val) {
            found += 1;
        }
    }
    found
}

/// Whether every item of the first list is in the second at least as often.
pub(crate) fn within(items: &[Val], others: &[Val]) -> bool
    ensures { result ≡ list_all (λ x. nat_le (the_count (map pure_val items.now) x) (the_count (map pure_val others.now) x))
        (map pure_val items.now) }
{
    for item in items {
        if count(items, item) > count(others, item) {
            return false;
        }
    }
    true
}

/// Copies of the items of the first list that are in the second. `NoMemory` where there is no room for them.
pub(crate) fn shared(alloc: Global, items: &[Val], others: &[Val]) -> Result<Row<Val>, NoMemory>
    ensures { IfOk result (λ r. map pure_val r ≡ filter (λ x. is_held (map pure_val others.now) x) (map pure_val items.now)) }
{
    let mut kept = Row::new(alloc);
    for item in items {
        if holds(others, item) {
            match item.copy(alloc) {
                Ok(copy) => kept.push(copy)?,
                Err(no) => return Err(no),
            }
        }
    }
    Ok(kept)
}

/// Copies of the items of the first list that aren't in the second. `NoMemory` where there is no room for them.
pub(crate) fn remaining(alloc: Global, items: &[Val], others: &[Val]) -> Result<Row<Val>, NoMemory>
    ensures { IfOk result (λ r. map pure_val r ≡ filter (λ x. not (is_held (map pure_val others.now) x)) (map pure_val items.now)) }
{
    let mut kept = Row::new(alloc);
    for item in items {
        if !holds(others, item) {
            match item.copy(alloc) {
                Ok(copy) => kept.push(copy)?,
                Err(no) => return Err(no),
            }
        }
    }
    Ok(kept)
}

/// Values in strictly rising order, each once: the members of their set. `NoMemory` where there is no room to sort them.
#[tactic(auto, using(crate::proofs::SortedMembers::members_sorted))]
pub(crate) fn sorted_once(alloc: Global, items: Row<Val>) -> Result<Row<Val>, NoMemory>
    ensures { IfOk result (λ r. map pure_val r ≡ the_sorted_once (map pure_val items)) }
{
    match set_of(alloc, items)? {
        Val::Set(members) => Ok(members),
        other => {
            drop(other);
            Err(NoMemory)
        }
    }
}

/// Values in rising order, with repeats: the members of their multiset. `NoMemory` where there is no room to sort them.
#[tactic(auto, using(crate::proofs::SortedMembers::members_sorted))]
pub(crate) fn sorted(alloc: Global, items: Row<Val>) -> Result<Row<Val>, NoMemory>
    ensures { IfOk result (λ r. map pure_val r ≡ the_sorted (map pure_val items)) }
{
    match mset_of(alloc, items)? {
        Val::MSet(members) => Ok(members),
        other => {
            drop(other);
            Err(NoMemory)
        }
    }
}
