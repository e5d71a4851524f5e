//! Rules of components and fields of literals, and of membership.
ghost use Rattle.std.specs.Prelude.{◌≡◌, IfOk, option_map};
ghost use Rattle.ess_core_nodes.specs.NodeViews.{pure_node};
ghost use Rattle.ess_node_types.specs.TypedNames.{pure_names};
ghost use Rattle.ess_kind_rules.specs.Supplies.{taken_supply};
ghost use Rattle.ess_rules.specs.Ruled.{membership_asked};
ghost use Rattle.ess_rules.specs.Supplies.{IsRewritten};

use ess_core_nodes::Node;
use ess_kind_rules::Taken;
use ess_node_types::NameTypes;
use ess_rows::{Boxed, NoMemory};
use ess_rules_lists::{component_listed, field_listed};
use ess_rules_membership::{
    member_changed, member_combined, member_listed, member_of_function, member_related, member_term,
};
use std::alloc::Global;

/// What the first of these rules that fires makes of the root, or nothing where none of them fires. `NoMemory` where there is no room for
/// it.
pub(crate) fn membership(
    alloc: Global,
    names: &NameTypes,
    taken: &Taken<'_>,
    node: &Node,
) -> Result<Option<Boxed<Node>>, NoMemory>
    ensures { IfOk result (λ o. IsRewritten membership_asked (taken_supply taken.now) (pure_names names.now) (pure_node node.now)
        (option_map pure_node o)) }
{
    if let Some(new) = component_listed(alloc, node)? {
        return Ok(Some(new));
    }
    if let Some(new) = field_listed(alloc, node)? {
        return Ok(Some(new));
    }
    if let Some(new) = member_combined(alloc, node)? {
        return Ok(Some(new));
    }
    if let Some(new) = member_changed(alloc, names, taken.one, node)? {
        return Ok(Some(new));
    }
    if let Some(new) = member_listed(alloc, node)? {
        return Ok(Some(new));
    }
    if let Some(new) = member_of_function(alloc, names, taken.one, node)? {
        return Ok(Some(new));
    }
    if let Some(new) = member_related(alloc, taken.one, node)? {
        return Ok(Some(new));
    }
    if let Some(new) = member_term(alloc, taken.one, node)? {
        return Ok(Some(new));
    }
    Ok(None)
}
