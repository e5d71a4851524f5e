//! Rules of comprehensions over sources whose items are counted, where their order counts.
ghost use Rattle.std.specs.Prelude.{◌≡◌, IfOk, option_map};
ghost use Rattle.ess_core_nodes.specs.NodeViews.{pure_node};
ghost use Rattle.ess_node_types.specs.TypedNames.{pure_names};
ghost use Rattle.ess_kind_rules.specs.Supplies.{taken_supply};
ghost use Rattle.ess_rules.specs.Ruled.{numbered_asked};
ghost use Rattle.ess_rules.specs.Supplies.{IsRewritten};

use ess_core_nodes::Node;
use ess_kind_rules::Taken;
use ess_node_types::NameTypes;
use ess_rows::{Boxed, NoMemory};
use ess_rules_numbered::{
    equal_by_number, lists_picked, order_by_number, within_a_pair, within_an_item,
};
use ess_rules_ordered::ItemNames;
use std::alloc::Global;

/// What the first of these rules that fires makes of the root, or nothing where none of them fires. `NoMemory` where there is no room for
/// it.
pub(crate) fn numbered(
    alloc: Global,
    names: &NameTypes,
    taken: &Taken<'_>,
    node: &Node,
) -> Result<Option<Boxed<Node>>, NoMemory>
    ensures { IfOk result (λ o. IsRewritten numbered_asked (taken_supply taken.now) (pure_names names.now) (pure_node node.now)
        (option_map pure_node o)) }
{
    let items = ItemNames {
        item: taken.one,
        other: taken.other,
        counted: taken.third,
        parts: taken.parts,
    };
    if let Some(new) = equal_by_number(alloc, names, &items, node)? {
        return Ok(Some(new));
    }
    if let Some(new) = order_by_number(alloc, names, &items, node)? {
        return Ok(Some(new));
    }
    if let Some(new) = within_an_item(alloc, names, &items, node)? {
        return Ok(Some(new));
    }
    if let Some(new) = within_a_pair(alloc, names, &items, node)? {
        return Ok(Some(new));
    }
    if let Some(new) = lists_picked(alloc, names, &items, node)? {
        return Ok(Some(new));
    }
    Ok(None)
}
