//! Rules of lists, and of sets of results.
ghost use Rattle.std.specs.Prelude.{◌≡◌, IfOk, option_map};
ghost use Rattle.ess_core_nodes.specs.NodeViews.{pure_node};
ghost use Rattle.ess_node_types.specs.TypedNames.{pure_names};
ghost use Rattle.ess_kind_rules.specs.Supplies.{taken_supply};
ghost use Rattle.ess_rules.specs.Ruled.{lists_asked};
ghost use Rattle.ess_rules.specs.Supplies.{IsRewritten};

use crate::special::{all_different, different_items};
use ess_core_nodes::Node;
use ess_kind_rules::Taken;
use ess_node_types::NameTypes;
use ess_rows::{Boxed, NoMemory};
use ess_rules_listings::range_as_set;
use ess_rules_lists::{extreme_listed, lex_both, list_term};
use std::alloc::Global;

/// What the first of these rules that fires makes of the root, or nothing where none of them fires. `NoMemory` where there is no room for
/// it.
pub(crate) fn lists(
    alloc: Global,
    names: &NameTypes,
    taken: &Taken<'_>,
    node: &Node,
) -> Result<Option<Boxed<Node>>, NoMemory>
    ensures { IfOk result (λ o. IsRewritten lists_asked (taken_supply taken.now) (pure_names names.now) (pure_node node.now)
        (option_map pure_node o)) }
{
    if let Some(new) = extreme_listed(alloc, node)? {
        return Ok(Some(new));
    }
    if let Some(new) = different_items(alloc, names, taken, node)? {
        return Ok(Some(new));
    }
    if let Some(new) = list_term(alloc, taken.one, node)? {
        return Ok(Some(new));
    }
    if let Some(new) = lex_both(alloc, taken.one, node)? {
        return Ok(Some(new));
    }
    if let Some(new) = all_different(alloc, names, taken, node)? {
        return Ok(Some(new));
    }
    if let Some(new) = range_as_set(alloc, names, taken.one, node)? {
        return Ok(Some(new));
    }
    Ok(None)
}
