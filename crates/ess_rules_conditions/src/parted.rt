//! Generators taken apart at the last condition that reads a cell.
ghost use Rattle.std.specs.Prelude.{◌≡◌, option_map};
ghost use Rattle.std.specs.Option.{option_copied};
ghost use Rattle.ess_core_nodes.specs.NodeViews.{pure_node, pure_gen, pure_gens};
ghost use Rattle.ess_refine_laws.specs.LeavingConditions.{at_last_condition};
ghost use Rattle.ess_rules_conditions.specs.PartedViews.{pure_parted, read_condition};

use ess_core_nodes::{Gen, Node};
use ess_rules_everywhere::has_cells;

/// Generators taken apart at a condition.
#[derive(Clone, Copy)]
pub struct Parted<'a> {
    /// Those before it.
    pub before: &'a [Gen],
    /// The condition.
    pub condition: &'a Node,
    /// Those behind it.
    pub after: &'a [Gen],
}

/// The generators at the last condition that reads a cell, where there is one.
#[tactic(auto, using(crate::proofs::PartedGens::parted_none, crate::proofs::PartedGens::parted_more))]
pub fn at_last_condition<'a>(gens: &'a [Gen]) -> Option<Parted<'a>>
    ensures { option_map pure_parted result ≡ at_last_condition (pure_gens gens.now) }
{
    let mut at = gens.len();
    while at > 0 {
        at -= 1;
        if let Some(condition) = table_condition(&gens[at]) {
            return Some(Parted {
                before: &gens[..at],
                condition,
                after: &gens[at + 1..],
            });
        }
    }
    None
}

/// The condition that reads a cell, where the item is one.
#[tactic(auto, using(ess_core_nodes::proofs::NodeEquations::pure_gen_over, ess_core_nodes::proofs::NodeEquations::pure_gen_from, ess_core_nodes::proofs::NodeEquations::pure_gen_if))]
fn table_condition(item: &Gen) -> Option<&Node>
    ensures { option_map pure_node (option_copied result) ≡ read_condition (pure_gen item.now) }
{
    match item {
        Gen::If(condition) => {
            if has_cells(condition.get()) {
                Some(condition.get())
            } else {
                None
            }
        }
        _ => None,
    }
}
