//! Rules of folds: over nothing, one item, no generator, a condition alone, a set made of another container.
ghost use Rattle.std.specs.Prelude.{◌≡◌, IfOk, option_map};
ghost use Rattle.ess_core_nodes.specs.NodeViews.{pure_node};
ghost use Rattle.ess_node_types.specs.TypedNames.{pure_names};
ghost use Rattle.ess_kind_rules.specs.Supplies.{taken_supply};
ghost use Rattle.ess_rules.specs.Ruled.{folds_asked};
ghost use Rattle.ess_rules.specs.Supplies.{IsRewritten};

use ess_core_nodes::Node;
use ess_kind_rules::Taken;
use ess_node_types::NameTypes;
use ess_rows::{Boxed, NoMemory};
use ess_rules_folds::{fold_alone, fold_bare, fold_loosely, fold_nothing, fold_one};
use std::alloc::Global;

/// What the first of these rules that fires makes of the root, or nothing where none of them fires. `NoMemory` where there is no room for
/// it.
pub(crate) fn folds(
    alloc: Global,
    _names: &NameTypes,
    _taken: &Taken<'_>,
    node: &Node,
) -> Result<Option<Boxed<Node>>, NoMemory>
    ensures { IfOk result (λ o. IsRewritten folds_asked (taken_supply _taken.now) (pure_names _names.now) (pure_node node.now)
        (option_map pure_node o)) }
{
    if let Some(new) = fold_nothing(alloc, node)? {
        return Ok(Some(new));
    }
    if let Some(new) = fold_one(alloc, node)? {
        return Ok(Some(new));
    }
    if let Some(new) = fold_bare(alloc, node)? {
        return Ok(Some(new));
    }
    if let Some(new) = fold_alone(alloc, node)? {
        return Ok(Some(new));
    }
    if let Some(new) = fold_loosely(alloc, node)? {
        return Ok(Some(new));
    }
    Ok(None)
}
