ghost use Rattle.std.specs.Prelude.{◌≡◌, map, IfOk};
ghost use Rattle.std.specs.List.{list_all};
ghost use Rattle.ess_semantics.specs.Values.{itself};
ghost use Rattle.ess_semantics.specs.Collections.{holds as list_holds, no_twice};
ghost use Rattle.ess_core.specs.ValueViews.{pure_val};

use crate::matrices::add_copies;
use crate::partitions::item_count;
use ess_core::{Boxed, NoMemory, Row, Val};
use ess_values::set_of;
use std::alloc::Global;

/// Whether no two of these are equal, told by the size of their set. `NoMemory` where there is no room to sort them.
#[tactic(auto, using(crate::proofs::SetSizes::differ_so, crate::proofs::SetSizes::differ_not))]
pub fn all_differ(alloc: Global, items: Row<Val>) -> Result<bool, NoMemory>
    ensures { IfOk result (λ b. b ≡ no_twice itself (map pure_val items)) }
{
    let count = items.len();
    let own = Boxed::new(alloc, set_of(alloc, items)?)?;
    if item_count(own.get()) == count {
        return Ok(true);
    }
    Ok(false)
}

/// Whether each of these values is among others, told by the size of the set of all. `NoMemory` where there is no room to
/// sort them.
#[tactic(auto, using(crate::proofs::SetSizes::among_so, crate::proofs::SetSizes::among_not))]
pub fn are_among(alloc: Global, mut vals: Row<Val>, others: Row<Val>) -> Result<bool, NoMemory>
    ensures { IfOk result (λ b. b ≡ list_all (list_holds (map pure_val others)) (map pure_val vals)) }
{
    add_copies(alloc, &mut vals, others.as_slice())?;
    let all = Boxed::new(alloc, set_of(alloc, vals)?)?;
    let own = Boxed::new(alloc, set_of(alloc, others)?)?;
    if item_count(all.get()) == item_count(own.get()) {
        return Ok(true);
    }
    Ok(false)
}
