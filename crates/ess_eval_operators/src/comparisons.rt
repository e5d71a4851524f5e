ghost use Rattle.std.specs.Prelude.{◌≡◌, IfOk, map};
ghost use Rattle.ess_semantics.specs.Order.{same as are_same, below as is_below, orders};
ghost use Rattle.ess_semantics.specs.Operators.{as_list};
ghost use Rattle.ess_core.specs.ValueViews.{pure_val, pure_vals};

use crate::items::{listed, spare};
use ess_core::{NoMemory, Val};
use ess_values::order;
use std::alloc::Global;
use std::cmp::Ordering;

/// Whether two values are equal.
pub(crate) fn same(a: &Val, b: &Val) -> bool
    ensures { result ≡ are_same (pure_val a.now) (pure_val b.now) }
{
    order(a, b) == Ordering::Equal
}

/// Whether a value is below another one.
pub(crate) fn below(a: &Val, b: &Val) -> bool
    ensures { result ≡ is_below (pure_val a.now) (pure_val b.now) }
{
    order(a, b) == Ordering::Less
}

/// Whether a value's list of items is below that of another one. `NoMemory` where there is no room to tell.
#[tactic(auto, using(crate::proofs::ComparedLists::lists_below))]
pub(crate) fn lex_below(alloc: Global, a: &Val, b: &Val) -> Result<bool, NoMemory>
    ensures { IfOk result (λ r. r ≡ is_below (as_list (pure_val a.now)) (as_list (pure_val b.now))) }
{
    let spare_of_a = spare(alloc, a)?;
    let spare_of_b = spare(alloc, b)?;
    let items = listed(a, spare_of_a.as_slice());
    let others = listed(b, spare_of_b.as_slice());
    Ok(order_lists(items, others) == Ordering::Less)
}

/// The order of two lists of values: the first that differs decides, and a prefix is lower.
#[tactic(auto, using(crate::proofs::ComparedLists::lists_end))]
fn order_lists(a: &[Val], b: &[Val]) -> Ordering
    ensures { result ≡ orders (pure_vals a.now) (pure_vals b.now) }
{
    for (i, x) in a.iter().enumerate() {
        if i >= b.len() {
            return Ordering::Greater;
        }
        let found = order(x, &b[i]);
        if found != Ordering::Equal {
            return found;
        }
    }
    if a.len() < b.len() {
        Ordering::Less
    } else {
        Ordering::Equal
    }
}
