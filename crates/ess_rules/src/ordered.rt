//! Rules of comprehensions whose items have an order: of sources by indices, of items by numbers, and of sources that are such items.
ghost use Rattle.std.specs.Prelude.{◌≡◌, IfOk, option_map};
ghost use Rattle.ess_core_nodes.specs.NodeViews.{pure_node};
ghost use Rattle.ess_node_types.specs.TypedNames.{pure_names};
ghost use Rattle.ess_kind_rules.specs.Supplies.{taken_supply};
ghost use Rattle.ess_rules.specs.Ruled.{ordered_asked};
ghost use Rattle.ess_rules.specs.Supplies.{IsRewritten};

use ess_core_nodes::Node;
use ess_kind_rules::Taken;
use ess_node_types::NameTypes;
use ess_rows::{Boxed, NoMemory};
use ess_rules_ordered::{ItemNames, an_item, of_an_item, source_by_indices, source_of_an_item};
use std::alloc::Global;

/// What the first of these rules that fires makes of the root, or nothing where none of them fires. `NoMemory` where there is no room for
/// it.
pub(crate) fn ordered(
    alloc: Global,
    names: &NameTypes,
    taken: &Taken<'_>,
    node: &Node,
) -> Result<Option<Boxed<Node>>, NoMemory>
    ensures { IfOk result (λ o. IsRewritten ordered_asked (taken_supply taken.now) (pure_names names.now) (pure_node node.now)
        (option_map pure_node o)) }
{
    let items = ItemNames {
        item: taken.one,
        other: taken.other,
        counted: taken.third,
        parts: taken.parts,
    };
    if let Some(new) = source_by_indices(alloc, names, taken.one, node)? {
        return Ok(Some(new));
    }
    if let Some(new) = of_an_item(alloc, names, &items, node)? {
        return Ok(Some(new));
    }
    if let Some(new) = an_item(alloc, names, &items, node)? {
        return Ok(Some(new));
    }
    if let Some(new) = source_of_an_item(alloc, &items, node)? {
        return Ok(Some(new));
    }
    Ok(None)
}
