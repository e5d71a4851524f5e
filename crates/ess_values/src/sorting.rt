ghost use Rattle.std.specs.Prelude.{◌≡◌, map, IfOk};
ghost use Rattle.ess_semantics.specs.Collections.{sorted, sorted_once};
ghost use Rattle.ess_core.specs.ValueViews.{pure_val, pure_pair};
ghost use Rattle.ess_values.specs.Neighbours.{neighbours_differ};

use crate::comparing::{order_pair, order_val};
use ess_core::{NoMemory, Pair, Row, Val};
use std::cmp::Ordering;

/// Values in rising order, with repeats. `NoMemory` where there is no room to sort them.
pub fn sorted(items: Row<Val>) -> Result<Row<Val>, NoMemory>
    ensures { IfOk result (λ r. map pure_val r ≡ sorted (map pure_val items)) }
{
    let mut items = items.into_vec();
    items.sort_by(|a, b| order_val(a, b))?;
    Ok(Row::from_vec(items))
}

/// Values in strictly rising order, each once. `NoMemory` where there is no room to sort them.
pub fn sorted_once(items: Row<Val>) -> Result<Row<Val>, NoMemory>
    ensures { IfOk result (λ r. map pure_val r ≡ sorted_once (map pure_val items)) }
{
    let mut items = items.into_vec();
    items.sort_by(|a, b| order_val(a, b))?;
    items.dedup_by(|a, b| order_val(a, b) == Ordering::Equal);
    Ok(Row::from_vec(items))
}

/// Pairs in strictly rising order, each once. `NoMemory` where there is no room to sort them.
pub fn sorted_pairs_once(pairs: Row<Pair>) -> Result<Row<Pair>, NoMemory>
    ensures { IfOk result (λ r. map pure_pair r ≡ sorted_once (map pure_pair pairs)) }
{
    let mut pairs = pairs.into_vec();
    pairs.sort_by(|a, b| order_pair(a, b))?;
    pairs.dedup_by(|a, b| order_pair(a, b) == Ordering::Equal);
    Ok(Row::from_vec(pairs))
}

/// Whether each two neighbours differ.
pub fn neighbours_apart(items: &[Val]) -> bool
    ensures { result ≡ neighbours_differ (map pure_val items.now) }
{
    for (i, item) in items.iter().enumerate() {
        if i + 1 < items.len() {
            if order_val(item, &items[i + 1]) == Ordering::Equal {
                return false;
            }
        }
    }
    true
}
