ghost use Rattle.std.specs.Prelude.{◌≡◌, map};
ghost use Rattle.ess_semantics.specs.Values.{itself, from_of};
ghost use Rattle.ess_semantics.specs.Collections.{rises as list_rises};
ghost use Rattle.ess_core.specs.ValueViews.{pure_val, pure_pair};
ghost use Rattle.ess_values_lookups.specs.Rising.{has_rising_items};

use ess_core::{Pair, Val};
use ess_values::order;
use std::cmp::Ordering;

/// Whether the value is a set or a relation whose items rise strictly, or a function whose arguments do.
#[tactic(auto, using(crate::proofs::Risings::kinds))]
pub fn is_rising(val: &Val) -> bool
    ensures { result ≡ has_rising_items (pure_val val.now) }
{
    match val {
        Val::Set(members) => rises(members.as_slice()),
        Val::Relation(tuples) => rises(tuples.as_slice()),
        Val::Function(pairs) => arguments_rise(pairs.as_slice()),
        _ => false,
    }
}

/// Whether the values rise strictly.
fn rises(items: &[Val]) -> bool
    ensures { result ≡ list_rises itself (map pure_val items.now) }
{
    for (i, item) in items.iter().enumerate() {
        if i + 1 < items.len() {
            if order(item, &items[i + 1]) != Ordering::Less {
                return false;
            }
        }
    }
    true
}

/// Whether the arguments of pairs rise strictly.
fn arguments_rise(pairs: &[Pair]) -> bool
    ensures { result ≡ list_rises from_of (map pure_pair pairs.now) }
{
    for (i, pair) in pairs.iter().enumerate() {
        if i + 1 < pairs.len() {
            if order(&pair.from, &pairs[i + 1].from) != Ordering::Less {
                return false;
            }
        }
    }
    true
}
