//! The rules that put the term of a source, or what it is made of, in the place of a name.
ghost use Rattle.std.specs.Prelude.{◌≡◌, IfOk, option_map};
ghost use Rattle.ess_core_nodes.specs.NodeViews.{pure_node};
ghost use Rattle.ess_node_types.specs.TypedNames.{pure_names};
ghost use Rattle.ess_kind_rules.specs.Supplies.{taken_supply};
ghost use Rattle.ess_rules.specs.Supplies.{IsSourced};

use crate::special::over_a_source;
use ess_core_nodes::Node;
use ess_kind_rules::{Taken, sources};
use ess_node_types::NameTypes;
use ess_rows::{Boxed, NoMemory};
use std::alloc::Global;

/// What the first of these rules that fires makes of the root, or nothing where none of them fires. `NoMemory` where there is no room for
/// it.
pub(crate) fn source_rules(
    alloc: Global,
    names: &NameTypes,
    taken: &Taken<'_>,
    node: &Node,
) -> Result<Option<Boxed<Node>>, NoMemory>
    ensures { IfOk result (λ o. IsSourced (taken_supply taken.now) (pure_names names.now) (pure_node node.now) (option_map pure_node o)) }
{
    if let Some(new) = sources(alloc, names, taken, node)? {
        return Ok(Some(new));
    }
    if let Some(new) = over_a_source(alloc, names, taken, node)? {
        return Ok(Some(new));
    }
    Ok(None)
}
