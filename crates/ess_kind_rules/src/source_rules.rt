//! Rules of sources at the first generator that isn't plain.
ghost use Rattle.std.specs.Prelude.{true, IfOk, option_map};
ghost use Rattle.ess_core_nodes.specs.NodeViews.{pure_node};
ghost use Rattle.ess_node_types.specs.TypedNames.{pure_names};
ghost use Rattle.ess_kind_rules.specs.Supplies.{taken_supply};
ghost use Rattle.ess_kind_rules.specs.Kinds.{IsOfKind};
ghost use Rattle.ess_kind_rules.specs.AskedKinds.{sources_asked};

use crate::{
    Taken, kept_behind, least_of_several, over_each_picked, over_one_opened, set_of_several,
};
use ess_core_nodes::Node;
use ess_node_types::NameTypes;
use ess_rows::{Boxed, NoMemory};
use std::alloc::Global;

/// What the first of these rules that fires makes of the root, or nothing where none of them fires. `NoMemory` where there is no room for
/// it.
pub fn sources(
    alloc: Global,
    names: &NameTypes,
    taken: &Taken<'_>,
    node: &Node,
) -> Result<Option<Boxed<Node>>, NoMemory>
    ensures { IfOk result (λ o. IsOfKind true sources_asked (taken_supply taken.now) (pure_names names.now) (pure_node node.now)
        (option_map pure_node o)) }
{
    if let Some(new) = over_one_opened(alloc, names, taken, node)? {
        return Ok(Some(new));
    }
    if let Some(new) = over_each_picked(alloc, names, taken, node)? {
        return Ok(Some(new));
    }
    if let Some(new) = kept_behind(alloc, names, taken, node)? {
        return Ok(Some(new));
    }
    if let Some(new) = least_of_several(alloc, names, taken, node)? {
        return Ok(Some(new));
    }
    if let Some(new) = set_of_several(alloc, names, taken, node)? {
        return Ok(Some(new));
    }
    Ok(None)
}
