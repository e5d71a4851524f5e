ghost use Rattle.std.specs.Prelude.{◌≡◌, map};
ghost use Rattle.ess_semantics.specs.Values.{itself, from_of};
ghost use Rattle.ess_semantics.specs.Order.{order as order_of, orders, same as same_of};
ghost use Rattle.ess_semantics.specs.Collections.{holds as list_holds, rises as list_rises, rises_weakly as list_rises_weakly};
ghost use Rattle.ess_semantics.specs.Membership.{same_list as same_lists};
ghost use Rattle.ess_core.specs.ValueViews.{pure_val, pure_vals, pure_pair};

use ess_core::{Pair, Val};
use ess_values::order;
use std::cmp::Ordering;

/// Whether two values are equal.
pub fn same(a: &Val, b: &Val) -> bool
    ensures { result ≡ same_of (pure_val a.now) (pure_val b.now) }
{
    order(a, b) == Ordering::Equal
}

/// Whether a value is among these.
pub fn holds(items: &[Val], val: &Val) -> bool
    ensures { result ≡ list_holds (map pure_val items.now) (pure_val val.now) }
{
    for item in items {
        if same(item, val) {
            return true;
        }
    }
    false
}

/// Whether the values rise strictly.
pub fn rises(items: &[Val]) -> bool
    ensures { result ≡ list_rises itself (map pure_val items.now) }
{
    for (i, item) in items.iter().enumerate() {
        if i + 1 < items.len() {
            if order(item, &items[i + 1]) != Ordering::Less {
                return false;
            }
        }
    }
    true
}

/// Whether the values rise, with repeats.
pub fn rises_weakly(items: &[Val]) -> bool
    ensures { result ≡ list_rises_weakly (map pure_val items.now) }
{
    for (i, item) in items.iter().enumerate() {
        if i + 1 < items.len() {
            if order(&items[i + 1], item) == Ordering::Less {
                return false;
            }
        }
    }
    true
}

/// Whether the arguments of pairs rise strictly.
pub fn arguments_rise(pairs: &[Pair]) -> bool
    ensures { result ≡ list_rises from_of (map pure_pair pairs.now) }
{
    for (i, pair) in pairs.iter().enumerate() {
        if i + 1 < pairs.len() {
            if order(&pair.from, &pairs[i + 1].from) != Ordering::Less {
                return false;
            }
        }
    }
    true
}

/// Whether two lists are equal.
pub fn same_list(a: &[Val], b: &[Val]) -> bool
    ensures { result ≡ same_lists (map pure_val a.now) (map pure_val b.now) }
{
    order_lists(a, b) == Ordering::Equal
}

/// The order of two lists of values; a prefix is lower.
#[tactic(auto, using(ess_values::proofs::Orders::vals_end))]
fn order_lists(a: &[Val], b: &[Val]) -> Ordering
    ensures { result ≡ orders (pure_vals a.now) (pure_vals b.now) }
{
    for (i, x) in a.iter().enumerate() {
        if i >= b.len() {
            return Ordering::Greater;
        }
        let found = order(x, &b[i]);
        if found != Ordering::Equal {
            return found;
        }
    }
    if a.len() < b.len() {
        Ordering::Less
    } else {
        Ordering::Equal
    }
}
