ghost use Rattle.std.specs.Prelude.{◌≡◌, IfOk, map, option_map};
ghost use Rattle.std.specs.List.{list_any};
ghost use Rattle.std.specs.Option.{option_copied};
ghost use Rattle.ess_semantics.specs.Lists.{append_all};
ghost use Rattle.ess_semantics.specs.Values.{items_of as the_items};
ghost use Rattle.ess_semantics.specs.Operators.{part_with as the_part_with, within as is_within};
ghost use Rattle.ess_core.specs.ValueViews.{pure_val};

use crate::collections::{included, member};
use crate::items::items_of;
use ess_core::{NoMemory, Row, Val};
use std::alloc::Global;

/// The first of the parts with this member, as a copy. `NoMemory` where there is no room for it, or to tell.
pub(crate) fn part_with(alloc: Global, parts: &[Val], val: &Val) -> Result<Option<Val>, NoMemory>
    ensures { IfOk result (λ o. option_map pure_val o ≡ the_part_with (map pure_val parts.now) (pure_val val.now)) }
{
    for part in parts {
        if member(alloc, val, part)? {
            return match part.copy(alloc) {
                Ok(copy) => Ok(Some(copy)),
                Err(no) => Err(no),
            };
        }
    }
    Ok(None)
}

/// Whether some part holds every member of a value. `NoMemory` where there is no room to tell.
pub(crate) fn together(alloc: Global, members: &Val, parts: &[Val]) -> Result<bool, NoMemory>
    ensures { IfOk result (λ r. r ≡ list_any (λ q. is_within (pure_val members.now) q) (map pure_val parts.now)) }
{
    for part in parts {
        if included(alloc, members, part)? {
            return Ok(true);
        }
    }
    Ok(false)
}

/// The items of all parts, part by part, as copies. `NoMemory` where there is no room for them.
pub(crate) fn participants(alloc: Global, parts: &[Val]) -> Result<Row<Val>, NoMemory>
    ensures { IfOk result (λ r. map pure_val r ≡ append_all (map the_items (map pure_val parts.now))) }
{
    let mut all = Row::new(alloc);
    for part in parts {
        let mut own = items_of(alloc, part)?;
        all.append(&mut own)?;
    }
    Ok(all)
}
