//! Rules of comparisons of compound values, and of inclusion.
ghost use Rattle.std.specs.Prelude.{◌≡◌, IfOk, option_map};
ghost use Rattle.ess_core_nodes.specs.NodeViews.{pure_node};
ghost use Rattle.ess_node_types.specs.TypedNames.{pure_names};
ghost use Rattle.ess_kind_rules.specs.Supplies.{taken_supply};
ghost use Rattle.ess_rules.specs.Ruled.{comparing_asked};
ghost use Rattle.ess_rules.specs.Supplies.{IsRewritten};

use crate::special::not_equal;
use ess_core_nodes::Node;
use ess_kind_rules::Taken;
use ess_node_types::NameTypes;
use ess_rows::{Boxed, NoMemory};
use ess_rules_comparing::{
    equal_components, equal_fields, equal_members, equal_often, equal_pairs, included_strictly,
    included_turned,
};
use std::alloc::Global;

/// What the first of these rules that fires makes of the root, or nothing where none of them fires. `NoMemory` where there is no room for
/// it.
pub(crate) fn comparing(
    alloc: Global,
    names: &NameTypes,
    taken: &Taken<'_>,
    node: &Node,
) -> Result<Option<Boxed<Node>>, NoMemory>
    ensures { IfOk result (λ o. IsRewritten comparing_asked (taken_supply taken.now) (pure_names names.now) (pure_node node.now)
        (option_map pure_node o)) }
{
    if let Some(new) = not_equal(alloc, names, taken, node)? {
        return Ok(Some(new));
    }
    if let Some(new) = included_turned(alloc, node)? {
        return Ok(Some(new));
    }
    if let Some(new) = included_strictly(alloc, names, taken.one, node)? {
        return Ok(Some(new));
    }
    if let Some(new) = equal_components(alloc, names, taken.one, node)? {
        return Ok(Some(new));
    }
    if let Some(new) = equal_fields(alloc, names, taken.one, node)? {
        return Ok(Some(new));
    }
    if let Some(new) = equal_members(alloc, names, taken.one, node)? {
        return Ok(Some(new));
    }
    if let Some(new) = equal_often(alloc, names, taken.one, node)? {
        return Ok(Some(new));
    }
    if let Some(new) = equal_pairs(alloc, names, taken.one, node)? {
        return Ok(Some(new));
    }
    Ok(None)
}
