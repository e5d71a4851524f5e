//! Constraints one behind the other.
ghost use Rattle.std.specs.Prelude.{◌≡◌, true, IfOk, map};
ghost use Rattle.ess_semantics.specs.Trees.{truth_ex};
ghost use Rattle.ess_core_nodes.specs.NodeViews.{pure_node};
ghost use Rattle.ess_structure.specs.Together.{together};

use ess_core_nodes::Node;
use ess_node_building::truth;
use ess_rows::{Boxed, NoMemory, Row};
use ess_structure_terms::both;
use std::alloc::Global;

/// All of these hold.
#[tactic(auto, using(crate::proofs::ComponentSteps::none_taken))]
pub(crate) fn all_hold(alloc: Global, mut parts: Row<Node>) -> Result<Boxed<Node>, NoMemory>
    ensures { IfOk result (λ n. pure_node n ≡ together (map pure_node parts) (truth_ex true)) }
{
    let mut total = truth(alloc, true)?;
    while let Some(part) = parts.pop() {
        let part = Boxed::new(alloc, part)?;
        total = both(alloc, part, total)?;
    }
    Ok(total)
}
