ghost use Rattle.std.specs.Prelude.{◌≡◌, map, true, false, IfOk};
ghost use Rattle.std.specs.List.{list_all, list_any};
ghost use Rattle.ess_semantics.specs.Lists.{is_empty, append_all};
ghost use Rattle.ess_semantics.specs.Collections.{partition_of as the_partition, has_empty_part, has_overlap};
ghost use Rattle.ess_core.specs.ValueViews.{pure_val};
ghost use Rattle.ess_semantics.specs.Membership.{is_set};
ghost use Rattle.ess_values.specs.Parts.{set_members};
ghost use Rattle.ess_values.specs.declared.partitions.PartitionNo.TheVariants.{EmptyPart, Overlap};

use crate::sorting::{neighbours_apart, sorted, sorted_once};
use ess_core::{NoMemory, Row, Val};
use std::alloc::Global;

/// Why sets make no partition.
#[derive(Clone, Copy, Debug, PartialEq, Eq)]
pub enum PartitionNo {
    /// One of them has no member.
    EmptyPart,
    /// Two of them, at two places of the list, share a member.
    Overlap,
    /// There is no room to sort them.
    NoMemory,
}

impl From<NoMemory> for PartitionNo {
    ghost use Rattle.std.specs.Prelude.{◌≡◌};
    ghost use Rattle.ess_values.specs.declared.partitions.PartitionNo.TheVariants.{NoMemory};

    ghost from_gives = { λ _ e. e ≡ NoMemory };

    fn from(_: NoMemory) -> PartitionNo {
        PartitionNo::NoMemory
    }
}

/// The partition with these parts, each a set, whose members have one type. `EmptyPart` where a part has no member, else
/// `Overlap` where two places of the list share a member, and `NoMemory` where there is no room to tell, or to sort them.
pub fn partition_of(alloc: Global, parts: Row<Val>) -> Result<Val, PartitionNo>
    requires sets { list_all is_set (map pure_val parts) ≡ true }
    ensures ok { IfOk result (λ v. the_partition (map pure_val parts) ≡ Some (pure_val v)) }
    ensures empty { result ≡ Err EmptyPart → has_empty_part (map pure_val parts) ≡ true }
    ensures overlap { result ≡ Err Overlap →
        (has_empty_part (map pure_val parts) ≡ false) × (has_overlap (map pure_val parts) ≡ true) }
{
    if has_empty(parts.as_slice()) {
        return Err(PartitionNo::EmptyPart);
    }
    let members = sorted(all_members(alloc, parts.as_slice())?)?;
    if !neighbours_apart(members.as_slice()) {
        return Err(PartitionNo::Overlap);
    }
    Ok(Val::Partition(sorted_once(parts)?))
}

/// Whether some part has no member.
fn has_empty(parts: &[Val]) -> bool
    ensures { result ≡ list_any (λ p. is_empty (set_members p)) (map pure_val parts.now) }
{
    for part in parts {
        if is_empty_part(part) {
            return true;
        }
    }
    false
}

/// Whether a part has no member.
fn is_empty_part(part: &Val) -> bool
    ensures { result ≡ is_empty (set_members (pure_val part.now)) }
{
    match part {
        Val::Set(members) => members.is_empty(),
        _ => true,
    }
}

/// The members of all parts, part by part. `NoMemory` where there is no room for them.
fn all_members(alloc: Global, parts: &[Val]) -> Result<Row<Val>, NoMemory>
    ensures { IfOk result (λ ms. map pure_val ms ≡ append_all (map set_members (map pure_val parts.now))) }
{
    let mut all = Row::new(alloc);
    for part in parts {
        let mut own = members(alloc, part)?;
        all.append(&mut own)?;
    }
    Ok(all)
}

/// The members of a part. `NoMemory` where there is no room for them.
fn members(alloc: Global, part: &Val) -> Result<Row<Val>, NoMemory>
    ensures { IfOk result (λ ms. map pure_val ms ≡ set_members (pure_val part.now)) }
{
    match part.copy(alloc)? {
        Val::Set(own) => Ok(own),
        other => {
            drop(other);
            Ok(Row::new(alloc))
        }
    }
}
