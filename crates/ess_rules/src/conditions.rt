//! Rules of chosen numbers, and of conditions that read cells: several under `min` or `max` become one first.
ghost use Rattle.std.specs.Prelude.{◌≡◌, IfOk, option_map};
ghost use Rattle.ess_core_nodes.specs.NodeViews.{pure_node};
ghost use Rattle.ess_node_types.specs.TypedNames.{pure_names};
ghost use Rattle.ess_kind_rules.specs.Supplies.{taken_supply};
ghost use Rattle.ess_rules.specs.Ruled.{conditions_asked};
ghost use Rattle.ess_rules.specs.Supplies.{IsRewritten};

use crate::settled::may_leave;
use ess_core_nodes::Node;
use ess_kind_rules::Taken;
use ess_node_types::NameTypes;
use ess_rows::{Boxed, NoMemory};
use ess_rules_conditions::{condition_later, condition_leaves};
use ess_rules_gathered::conditions_gathered;
use ess_rules_lists::choice_shorter;
use std::alloc::Global;

/// What the first of these rules that fires makes of the root, or nothing where none of them fires. `NoMemory` where there is no room for
/// it.
pub(crate) fn conditions(
    alloc: Global,
    _names: &NameTypes,
    _taken: &Taken<'_>,
    node: &Node,
) -> Result<Option<Boxed<Node>>, NoMemory>
    ensures { IfOk result (λ o. IsRewritten conditions_asked (taken_supply _taken.now) (pure_names _names.now) (pure_node node.now)
        (option_map pure_node o)) }
{
    if let Some(new) = choice_shorter(alloc, node)? {
        return Ok(Some(new));
    }
    if !may_leave(node) {
        return Ok(None);
    }
    if let Some(new) = conditions_gathered(alloc, node)? {
        return Ok(Some(new));
    }
    if let Some(new) = condition_leaves(alloc, node)? {
        return Ok(Some(new));
    }
    if let Some(new) = condition_later(alloc, node)? {
        return Ok(Some(new));
    }
    Ok(None)
}
