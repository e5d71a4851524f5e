ghost use Rattle.std.specs.Prelude.{◌≡◌, IfOk, map, option_map};
ghost use Rattle.ess_semantics.specs.Lists.{all_some};
ghost use Rattle.ess_core.specs.ValueViews.{pure_val};

use ess_core::{NoMemory, Row, Val};
use std::alloc::Global;

/// Copies of the values of operands, where each has one. `NoMemory` where there is no room for them.
#[tactic(auto, using(crate::proofs::PresentOperands::operands))]
pub(crate) fn present(alloc: Global, operands: &[Option<Val>]) -> Result<Option<Row<Val>>, NoMemory>
    ensures { IfOk result (λ o. option_map (map pure_val) o ≡ all_some (map (option_map pure_val) operands.now)) }
{
    let mut vals = Row::with_capacity(alloc, operands.len())?;
    for operand in operands {
        match operand {
            Some(val) => match val.copy(alloc) {
                Ok(copy) => vals.push(copy)?,
                Err(no) => return Err(no),
            },
            None => return Ok(None),
        }
    }
    Ok(Some(vals))
}

/// The values of operands, where each has one. `NoMemory` where there is no room for their list.
pub(crate) fn all_present(
    alloc: Global,
    operands: Row<Option<Val>>,
) -> Result<Option<Row<Val>>, NoMemory>
    ensures { IfOk result (λ o. option_map (map pure_val) o ≡ all_some (map (option_map pure_val) operands)) }
{
    present(alloc, operands.as_slice())
}
