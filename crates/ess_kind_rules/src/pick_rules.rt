//! Rules of frequencies in views, of parts of partitions, and of what is picked.
ghost use Rattle.std.specs.Prelude.{false, IfOk, option_map};
ghost use Rattle.ess_core_nodes.specs.NodeViews.{pure_node};
ghost use Rattle.ess_node_types.specs.TypedNames.{pure_names};
ghost use Rattle.ess_kind_rules.specs.Supplies.{taken_supply};
ghost use Rattle.ess_kind_rules.specs.Kinds.{IsOfKind};
ghost use Rattle.ess_kind_rules.specs.AskedKinds.{picks_asked};

use crate::measures::{frequency_by_cells, lie_together, party_by_number};
use crate::{Taken, over_picked, picked_scalar};
use ess_core_nodes::Node;
use ess_node_types::NameTypes;
use ess_rows::{Boxed, NoMemory};
use ess_rules_opening::seen_loosely;
use std::alloc::Global;

/// What the first of these rules that fires makes of the root, or nothing where none of them fires. `NoMemory` where there is no room for
/// it.
pub fn picks(
    alloc: Global,
    names: &NameTypes,
    taken: &Taken<'_>,
    node: &Node,
) -> Result<Option<Boxed<Node>>, NoMemory>
    ensures { IfOk result (λ o. IsOfKind false picks_asked (taken_supply taken.now) (pure_names names.now) (pure_node node.now)
        (option_map pure_node o)) }
{
    if let Some(new) = frequency_by_cells(alloc, taken.one, node)? {
        return Ok(Some(new));
    }
    if let Some(new) = lie_together(alloc, taken.one, taken.other, node)? {
        return Ok(Some(new));
    }
    if let Some(new) = party_by_number(alloc, node)? {
        return Ok(Some(new));
    }
    if let Some(new) = over_picked(alloc, names, taken, node)? {
        return Ok(Some(new));
    }
    if let Some(new) = seen_loosely(alloc, node)? {
        return Ok(Some(new));
    }
    if let Some(new) = picked_scalar(alloc, names, taken, node)? {
        return Ok(Some(new));
    }
    Ok(None)
}
