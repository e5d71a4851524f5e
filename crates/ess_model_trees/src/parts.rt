//! What is written for a tree over tables that isn't guarded: a part of a structure, a channel, the bound of a domain.
ghost use Rattle.std.specs.Prelude.{◌≡◌, [], IfOk, option_map};
ghost use Rattle.ess_core_nodes.specs.NodeViews.{pure_node};
ghost use Rattle.eprime_tree.specs.Views.{pure_ex};
ghost use Rattle.eprime_read_convert.specs.Lines.{scope_of};
ghost use Rattle.conjure_model_laws.specs.ToldApart.{told, told_apart};
ghost use Rattle.ess_model_trees.specs.Written.{ComesFrom, PrintsFrom};

use crate::writing::{printing, written};
use eprime_read_convert::Lines;
use eprime_tree::PEx;
use ess_core_nodes::Node;
use ess_model_names::told_apart_from;
use ess_model_printed::Taken;
use ess_rows::{Boxed, NoMemory};
use std::alloc::Global;

/// What is written for a tree over tables, where these lines declare names; no bound name is printed as one that is taken. Its bound
/// names are told apart first: they become reserved names from the one with this number on. `None` where it can't be written: refining
/// was given up, since something abstract is left and none of the rules that are asked fires any more; or nothing abstract is left, and no
/// tree of a model stands for what is left. `NoMemory` where there is no room for it, or the reserved names can't be counted.
pub fn tree_written(
    alloc: Global,
    number: u64,
    taken: &Taken,
    lines: &Lines,
    node: &Node,
) -> Result<Option<Boxed<PEx>>, NoMemory>
    ensures { IfOk result (λ o. ComesFrom (scope_of lines.now) taken.now (told (pure_node node.now) [] number).1
        (told_apart number (pure_node node.now)) (option_map (pure_ex (scope_of lines.now)) o)) }
{
    let mut next = number;
    let tree = told_apart_from(alloc, node, &mut next)?;
    written(alloc, tree, taken, lines, &mut next)
}

/// The same without the last step: the tree with printed names. `None` where refining was given up, and `NoMemory`, as above.
pub fn tree_printed(
    alloc: Global,
    number: u64,
    taken: &Taken,
    node: &Node,
) -> Result<Option<Boxed<Node>>, NoMemory>
    ensures { IfOk result (λ o. PrintsFrom taken.now (told (pure_node node.now) [] number).1
        (told_apart number (pure_node node.now)) (option_map pure_node o)) }
{
    let mut next = number;
    let tree = told_apart_from(alloc, node, &mut next)?;
    printing(alloc, tree, taken, &mut next)
}
