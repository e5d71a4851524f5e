//! Rules of sizes of views.
ghost use Rattle.std.specs.Prelude.{false, IfOk, option_map};
ghost use Rattle.ess_core_nodes.specs.NodeViews.{pure_node};
ghost use Rattle.ess_node_types.specs.TypedNames.{pure_names};
ghost use Rattle.ess_kind_rules.specs.Supplies.{taken_supply};
ghost use Rattle.ess_kind_rules.specs.Kinds.{IsOfKind};
ghost use Rattle.ess_kind_rules.specs.AskedKinds.{view_sizes_asked};

use crate::measures::{size_of_a_multiset, size_of_slots};
use crate::{Taken, function_size};
use ess_core_nodes::Node;
use ess_node_types::NameTypes;
use ess_rows::{Boxed, NoMemory};
use ess_rules_partitions::number_of_parts;
use ess_rules_views::size_by_marker;
use std::alloc::Global;

/// What the first of these rules that fires makes of the root, or nothing where none of them fires. `NoMemory` where there is no room for
/// it.
pub fn sizes(
    alloc: Global,
    _names: &NameTypes,
    taken: &Taken<'_>,
    node: &Node,
) -> Result<Option<Boxed<Node>>, NoMemory>
    ensures { IfOk result (λ o. IsOfKind false view_sizes_asked (taken_supply taken.now) (pure_names _names.now) (pure_node node.now)
        (option_map pure_node o)) }
{
    if let Some(new) = size_by_marker(alloc, node)? {
        return Ok(Some(new));
    }
    if let Some(new) = size_of_slots(alloc, node)? {
        return Ok(Some(new));
    }
    if let Some(new) = size_of_a_multiset(alloc, taken.one, node)? {
        return Ok(Some(new));
    }
    if let Some(new) = function_size(alloc, node)? {
        return Ok(Some(new));
    }
    if let Some(new) = number_of_parts(alloc, node)? {
        return Ok(Some(new));
    }
    Ok(None)
}
