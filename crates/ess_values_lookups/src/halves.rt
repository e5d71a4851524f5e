ghost use Rattle.std.specs.Prelude.{◌≡◌, true, map, option_map};
ghost use Rattle.std.specs.Option.{option_copied};
ghost use Rattle.ess_semantics.specs.Values.{itself, from_of};
ghost use Rattle.ess_semantics.specs.Collections.{holds, rises, value_at};
ghost use Rattle.ess_core.specs.ValueViews.{pure_val, pure_pair};

use ess_core::{Pair, Val};
use ess_values::order;
use std::cmp::Ordering;

/// Whether a value is among values that rise strictly.
#[tactic(auto, using(crate::proofs::Slices::vals))]
pub fn holds_rising(items: &[Val], val: &Val) -> bool
    requires { rises itself (map pure_val items.now) ≡ true }
    ensures { result ≡ holds (map pure_val items.now) (pure_val val.now) }
{
    let mut low: usize = 0;
    let mut high: usize = items.len();
    'halve: while low < high {
        let middle = low + (high - low) / 2;
        match order(&items[middle], val) {
            Ordering::Less => low = middle + 1,
            Ordering::Greater => high = middle,
            Ordering::Equal => return true,
        }
    }
    false
}

/// The value of a function, given by its pairs, at an argument, where the first parts of the pairs rise strictly.
#[tactic(auto, using(crate::proofs::Slices::pairs))]
pub fn value_at_rising<'a>(pairs: &'a [Pair], at: &Val) -> Option<&'a Val>
    requires { rises from_of (map pure_pair pairs.now) ≡ true }
    ensures { option_map pure_val (option_copied result) ≡ value_at (map pure_pair pairs.now) (pure_val at.now) }
{
    let mut low: usize = 0;
    let mut high: usize = pairs.len();
    'halve: while low < high {
        let middle = low + (high - low) / 2;
        match order(&pairs[middle].from, at) {
            Ordering::Less => low = middle + 1,
            Ordering::Greater => high = middle,
            Ordering::Equal => return Some(&pairs[middle].to),
        }
    }
    None
}
