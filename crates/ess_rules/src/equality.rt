//! Rules of equality of partitions and matrices, and of inclusion of sets and multisets.
ghost use Rattle.std.specs.Prelude.{◌≡◌, IfOk, option_map};
ghost use Rattle.ess_core_nodes.specs.NodeViews.{pure_node};
ghost use Rattle.ess_node_types.specs.TypedNames.{pure_names};
ghost use Rattle.ess_kind_rules.specs.Supplies.{taken_supply};
ghost use Rattle.ess_rules.specs.Ruled.{equality_asked};
ghost use Rattle.ess_rules.specs.Supplies.{IsRewritten};

use crate::special::equal_matrices_at;
use ess_core_nodes::Node;
use ess_kind_rules::Taken;
use ess_node_types::NameTypes;
use ess_rows::{Boxed, NoMemory};
use ess_rules_comparing::{equal_parts, equal_to_nothing, included_members, included_often};
use std::alloc::Global;

/// What the first of these rules that fires makes of the root, or nothing where none of them fires. `NoMemory` where there is no room for
/// it.
pub(crate) fn equality(
    alloc: Global,
    names: &NameTypes,
    taken: &Taken<'_>,
    node: &Node,
) -> Result<Option<Boxed<Node>>, NoMemory>
    ensures { IfOk result (λ o. IsRewritten equality_asked (taken_supply taken.now) (pure_names names.now) (pure_node node.now)
        (option_map pure_node o)) }
{
    if let Some(new) = equal_parts(alloc, names, taken.one, node)? {
        return Ok(Some(new));
    }
    if let Some(new) = equal_to_nothing(alloc, names, taken.one, node)? {
        return Ok(Some(new));
    }
    if let Some(new) = equal_matrices_at(alloc, names, taken, node)? {
        return Ok(Some(new));
    }
    if let Some(new) = included_members(alloc, names, taken.one, node)? {
        return Ok(Some(new));
    }
    if let Some(new) = included_often(alloc, taken.one, node)? {
        return Ok(Some(new));
    }
    Ok(None)
}
