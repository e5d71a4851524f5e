ghost use Rattle.std.specs.Prelude.{◌≡◌, IfOk, map, option_map};
ghost use Rattle.ess_semantics.specs.Lists.{is_empty};
ghost use Rattle.ess_semantics.specs.Trees.{partition_literal};
ghost use Rattle.ess_semantics.specs.Collections.{partition_of as the_partition, has_empty_part};
ghost use Rattle.ess_semantics.specs.Values.{items_of as the_items};
ghost use Rattle.ess_semantics.specs.Operators.{value_of_node};
ghost use Rattle.ess_core.specs.ValueViews.{pure_val};
ghost use Rattle.ess_values.specs.Neighbours.{neighbours_differ};

use crate::comparisons::same;
use crate::items::{listed, spare};
use crate::members::{sorted, sorted_once};
use crate::operands::all_present;
use crate::partitions::participants;
use ess_core::{NoMemory, Row, Val};
use std::alloc::Global;

/// The value of a partition literal whose parts may have no value: then it has none, and so where a part has no member or
/// two places of the list share one. `NoMemory` where there is no room for it, or to tell.
pub fn partition_value(alloc: Global, parts: Row<Option<Val>>) -> Result<Option<Val>, NoMemory>
    ensures { IfOk result (λ o. option_map pure_val o ≡ value_of_node partition_literal (map (option_map pure_val) parts)) }
{
    match all_present(alloc, parts)? {
        Some(vals) => partition_from(alloc, vals),
        None => Ok(None),
    }
}

/// The partition with these parts, where none is empty and no two share a member.
#[tactic(auto, using(crate::proofs::PartLists::part_lists))]
fn partition_from(alloc: Global, parts: Row<Val>) -> Result<Option<Val>, NoMemory>
    ensures { IfOk result (λ o. option_map pure_val o ≡ the_partition (map pure_val parts)) }
{
    if has_empty(alloc, parts.as_slice())? {
        return Ok(None);
    }
    let members = sorted(alloc, participants(alloc, parts.as_slice())?)?;
    if !neighbours_apart(members.as_slice()) {
        return Ok(None);
    }
    Ok(Some(Val::Partition(sorted_once(alloc, parts)?)))
}

/// Whether some part has no member. `NoMemory` where there is no room to tell.
fn has_empty(alloc: Global, parts: &[Val]) -> Result<bool, NoMemory>
    ensures { IfOk result (λ r. r ≡ has_empty_part (map pure_val parts.now)) }
{
    for part in parts {
        if is_empty_part(alloc, part)? {
            return Ok(true);
        }
    }
    Ok(false)
}

/// Whether a part has no member. `NoMemory` where there is no room to tell.
#[tactic(auto, using(crate::proofs::PartLists::empty_items))]
fn is_empty_part(alloc: Global, part: &Val) -> Result<bool, NoMemory>
    ensures { IfOk result (λ r. r ≡ is_empty (the_items (pure_val part.now))) }
{
    let spare = spare(alloc, part)?;
    Ok(listed(part, spare.as_slice()).len() == 0)
}

/// Whether each two neighbours differ.
fn neighbours_apart(items: &[Val]) -> bool
    ensures { result ≡ neighbours_differ (map pure_val items.now) }
{
    for (i, item) in items.iter().enumerate() {
        if i + 1 < items.len() {
            if same(item, &items[i + 1]) {
                return false;
            }
        }
    }
    true
}
