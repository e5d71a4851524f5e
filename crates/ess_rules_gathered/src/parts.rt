//! The conditions that read cells among generators, and what is left without them.
ghost use Rattle.std.specs.Prelude.{◌≡◌, IfOk, option_map};
ghost use Rattle.std.specs.Option.{option_copied};
ghost use Rattle.ess_core_nodes.specs.NodeViews.{pure_node, pure_gen, pure_gens};
ghost use Rattle.ess_rules_laws.specs.SpliceRules.{append_gens};
ghost use Rattle.ess_rules_conditions.specs.PartedViews.{read_condition};
ghost use Rattle.ess_gathered_laws.specs.GatheredConditions.{cell_conditions, without_conditions};
ghost use Rattle.ess_rules_gathered.specs.Conjunctions.{conjunction_of};

use ess_core_nodes::{Gen, Node};
use ess_rows::{Boxed, NoMemory, Row};
use ess_rules_everywhere::has_cells;
use ess_rules_forms::both;
use std::alloc::Global;

/// The conjunction of the conditions that read cells, and whether there are two or more. `NoMemory` where there is no room for it.
pub(crate) fn conjunction(
    alloc: Global,
    gens: &[Gen],
) -> Result<Option<(Boxed<Node>, bool)>, NoMemory>
    ensures { IfOk result (λ o. option_map (λ p. (pure_node p.0, p.1)) o ≡ conjunction_of (cell_conditions (pure_gens gens.now))) }
{
    let Some((first, rest)) = gens.split_first() else {
        return Ok(None);
    };
    let behind = conjunction(alloc, rest)?;
    match cell_condition(first) {
        None => Ok(behind),
        Some(condition) => {
            let condition = condition.copy(alloc)?;
            match behind {
                None => Ok(Some((condition, false))),
                Some((others, _)) => Ok(Some((both(alloc, condition, others)?, true))),
            }
        }
    }
}

/// The generators behind those done, without the conditions that read cells. `NoMemory` where there is no room for them.
pub(crate) fn others(alloc: Global, gens: &[Gen], mut done: Row<Gen>) -> Result<Row<Gen>, NoMemory>
    ensures { IfOk result (λ gs. pure_gens gs ≡ append_gens (pure_gens done) (without_conditions (pure_gens gens.now))) }
{
    let Some((first, rest)) = gens.split_first() else {
        return Ok(done);
    };
    match cell_condition(first) {
        Some(_) => others(alloc, rest, done),
        None => {
            let copy = first.copy(alloc)?;
            done.push(copy.into_inner())?;
            others(alloc, rest, done)
        }
    }
}

/// The condition that reads a cell, where the item is one.
#[tactic(auto, using(ess_core_nodes::proofs::NodeEquations::pure_gen_over, ess_core_nodes::proofs::NodeEquations::pure_gen_from, ess_core_nodes::proofs::NodeEquations::pure_gen_if))]
fn cell_condition(item: &Gen) -> Option<&Node>
    ensures { option_map pure_node (option_copied result) ≡ read_condition (pure_gen item.now) }
{
    match item {
        Gen::If(condition) => {
            if has_cells(condition.get()) {
                Some(condition.get())
            } else {
                None
            }
        }
        _ => None,
    }
}
