ghost use Rattle.std.specs.Prelude.{◌≡◌, map, IfOk};
ghost use Rattle.ess_semantics.specs.Collections.{set_of as the_set, mset_of as the_mset};
ghost use Rattle.ess_core.specs.ValueViews.{pure_val};

use crate::sorting::{sorted, sorted_once};
use ess_core::{NoMemory, Row, Val};
use std::alloc::Global;

/// The set of values of one type: they are sorted, and each counts once. `NoMemory` where there is no room to sort them.
pub fn set_of(_alloc: Global, items: Row<Val>) -> Result<Val, NoMemory>
    ensures { IfOk result (λ v. pure_val v ≡ the_set (map pure_val items)) }
{
    Ok(Val::Set(sorted_once(items)?))
}

/// The multiset of values of one type: they are sorted. `NoMemory` where there is no room to sort them.
pub fn mset_of(_alloc: Global, items: Row<Val>) -> Result<Val, NoMemory>
    ensures { IfOk result (λ v. pure_val v ≡ the_mset (map pure_val items)) }
{
    Ok(Val::MSet(sorted(items)?))
}
