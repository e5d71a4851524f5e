//! What a model's constraints, its objective, and the rule that the objective has a value are written from.
ghost use Rattle.std.specs.Prelude.{◌≡◌, IfOk, option_map};
ghost use Rattle.ess_core_nodes.specs.NodeViews.{pure_node};
ghost use Rattle.eprime_tree.specs.Views.{pure_ex};
ghost use Rattle.eprime_read_convert.specs.Lines.{scope_of};
ghost use Rattle.conjure_model_laws.specs.IsBuiltFrom.{constraint_tree, condition_tree, objective_tree};
ghost use Rattle.ess_model_shown.specs.Tables.{pure_shows};
ghost use Rattle.ess_model_trees.specs.Written.{ComesFrom, next_behind};

use crate::over_tables::{condition_over, constraint_over, objective_over};
use crate::writing::written;
use eprime_read_convert::Lines;
use eprime_tree::PEx;
use ess_core_nodes::Node;
use ess_model_printed::Taken;
use ess_model_shown::Shows;
use ess_rows::{Boxed, NoMemory};
use std::alloc::Global;

/// The constraint of a model that is written for one of its specification, where these stand over tables in the place of names, and
/// these lines declare names; no bound name is printed as one that is taken. Its undefined terms are done away with. `None` where it
/// can't be written: refining was given up, since something abstract is left and none of the rules that are asked fires any more; or
/// nothing abstract is left, and no tree of a model stands for what is left. `NoMemory` where there is no room for it, or the reserved
/// names can't be counted.
pub fn constraint_written(
    alloc: Global,
    shows: &Shows,
    taken: &Taken,
    lines: &Lines,
    node: &Node,
) -> Result<Option<Boxed<PEx>>, NoMemory>
    ensures { IfOk result (λ o. ComesFrom (scope_of lines.now) taken.now (next_behind (pure_shows shows.now) (pure_node node.now))
        (constraint_tree (pure_shows shows.now) (pure_node node.now)) (option_map (pure_ex (scope_of lines.now)) o)) }
{
    let mut next = 0;
    let tree = constraint_over(alloc, shows, node, &mut next)?;
    written(alloc, tree, taken, lines, &mut next)
}

/// The rule of a model that the objective of its specification has a value. `None` and `NoMemory` as above.
pub fn condition_written(
    alloc: Global,
    shows: &Shows,
    taken: &Taken,
    lines: &Lines,
    node: &Node,
) -> Result<Option<Boxed<PEx>>, NoMemory>
    ensures { IfOk result (λ o. ComesFrom (scope_of lines.now) taken.now (next_behind (pure_shows shows.now) (pure_node node.now))
        (condition_tree (pure_shows shows.now) (pure_node node.now)) (option_map (pure_ex (scope_of lines.now)) o)) }
{
    let mut next = 0;
    let tree = condition_over(alloc, shows, node, &mut next)?;
    written(alloc, tree, taken, lines, &mut next)
}

/// The objective of a model that is written for that of its specification, which isn't asked where it has no value. `None` and
/// `NoMemory` as above.
pub fn objective_written(
    alloc: Global,
    shows: &Shows,
    taken: &Taken,
    lines: &Lines,
    node: &Node,
) -> Result<Option<Boxed<PEx>>, NoMemory>
    ensures { IfOk result (λ o. ComesFrom (scope_of lines.now) taken.now (next_behind (pure_shows shows.now) (pure_node node.now))
        (objective_tree (pure_shows shows.now) (pure_node node.now)) (option_map (pure_ex (scope_of lines.now)) o)) }
{
    let mut next = 0;
    let tree = objective_over(alloc, shows, node, &mut next)?;
    written(alloc, tree, taken, lines, &mut next)
}
