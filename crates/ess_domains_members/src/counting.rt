ghost use Rattle.std.specs.Prelude.{◌≡◌, map, pos, int_le};
ghost use Rattle.std.specs.List.{list_all};
ghost use Rattle.ess_semantics.specs.Collections.{count as count_of};
ghost use Rattle.ess_semantics.specs.Attributes.{occurs_holds as occurrences_hold};
ghost use Rattle.ess_core.specs.ValueViews.{pure_val};

use crate::lists::same;
use crate::numbers::{is_at_least, is_at_most};
use ess_core::{Key, Val};

/// How often a value is among these.
pub fn count(items: &[Val], val: &Val) -> usize
    ensures { result ≡ count_of (map pure_val items.now) (pure_val val.now) }
{
    let mut found = 0;
    for item in items {
        if same(item, val) {
            found += 1;
        }
    }
    found
}

/// Whether an attribute of occurrences allows these members, repeats counted. Any other attribute allows all.
pub fn occurs_holds(key: Key, number: i64, items: &[Val]) -> bool
    ensures { result ≡ occurrences_hold key number (map pure_val items.now) }
{
    match key {
        Key::MinOccur => each_at_least(number, items),
        Key::MaxOccur => each_at_most(number, items),
        _ => true,
    }
}

/// Whether each of these occurs at least so often among them.
fn each_at_least(number: i64, items: &[Val]) -> bool
    ensures { result ≡ list_all (λ x. int_le number (pos (count_of (map pure_val items.now) x))) (map pure_val items.now) }
{
    for item in items {
        if !is_at_most(number, count(items, item)) {
            return false;
        }
    }
    true
}

/// Whether each of these occurs at most so often among them.
fn each_at_most(number: i64, items: &[Val]) -> bool
    ensures { result ≡ list_all (λ x. int_le (pos (count_of (map pure_val items.now) x)) number) (map pure_val items.now) }
{
    for item in items {
        if !is_at_least(number, count(items, item)) {
            return false;
        }
    }
    true
}
