//! The bounds of domains, as they are printed.
ghost use Rattle.std.specs.Prelude.{IfOk, option_map};
ghost use Rattle.ess_core_nodes.specs.NodeViews.{pure_nodes};
ghost use Rattle.ess_model_written.specs.Bounds.{BoundsPrint};

use ess_core_nodes::Node;
use ess_model_printed::Taken;
use ess_model_trees::tree_printed;
use ess_rows::{NoMemory, Row};
use std::alloc::Global;

/// What each of the bounds becomes: rules lead to it, and it is printed. `None` where refining one of them was given up, as
/// `tree_printed` says. `NoMemory` where there is no room for them, or the reserved names can't be counted.
#[tactic(auto, using(crate::proofs::BoundSteps::bound_steps))]
pub(crate) fn bounds_printed(
    alloc: Global,
    number: u64,
    taken: &Taken,
    bounds: &[Node],
) -> Result<Option<Row<Node>>, NoMemory>
    ensures { IfOk result (λ o. BoundsPrint taken.now number (pure_nodes bounds.now) (option_map pure_nodes o)) }
{
    let mut printed = Row::with_capacity(alloc, bounds.len())?;
    for bound in bounds {
        match tree_printed(alloc, number, taken, bound)? {
            Some(node) => printed.push(node.into_inner())?,
            None => return Ok(None),
        }
    }
    Ok(Some(printed))
}
