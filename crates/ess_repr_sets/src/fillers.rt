ghost use Rattle.std.specs.Prelude.{◌≡◌, ◌++◌, replicate, IfOk, OnOk};
ghost use Rattle.ess_repr_sets.specs.SetRows.{filled_with as filled_up};

use ess_core::{NoMemory, Row};

/// Exactly so many items: the first ones, and the filler in place of those that lack. `NoMemory` where there is no room for them.
pub fn filled_with(items: Row<i64>, count: usize, filler: i64) -> Result<Row<i64>, NoMemory>
    ensures { IfOk result (λ r. r ≡ filled_up count filler items) }
{
    let mut items = items;
    let missing = count.saturating_sub(items.len());
    items.truncate(count);
    add_fillers(&mut items, missing, filler)?;
    Ok(items)
}

/// Puts a number so many times behind others. `NoMemory` where there is no room for it.
#[tactic(auto, using(crate::proofs::CountLoops::one_more))]
fn add_fillers(items: &mut Row<i64>, count: usize, filler: i64) -> Result<(), NoMemory>
    ensures { OnOk result (items.new ≡ items.old ++ replicate count filler) }
{
    for k in 0..count {
        items.push(filler)?;
    }
    Ok(())
}
