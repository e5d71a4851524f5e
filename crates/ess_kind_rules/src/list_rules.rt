//! Rules of folds behind plain generators, of lists told apart by counts, and of sets of what isn't laid open.
ghost use Rattle.std.specs.Prelude.{false, IfOk, option_map};
ghost use Rattle.ess_core_nodes.specs.NodeViews.{pure_node};
ghost use Rattle.ess_node_types.specs.TypedNames.{pure_names};
ghost use Rattle.ess_kind_rules.specs.Supplies.{taken_supply};
ghost use Rattle.ess_kind_rules.specs.Kinds.{IsOfKind};
ghost use Rattle.ess_kind_rules.specs.AskedKinds.{folds_behind_asked};

use crate::{Taken, counted_apart, set_of_term};
use ess_core_nodes::Node;
use ess_node_types::NameTypes;
use ess_rows::{Boxed, NoMemory};
use ess_rules_opening::{listed_plainly, nested};
use std::alloc::Global;

/// What the first of these rules that fires makes of the root, or nothing where none of them fires. `NoMemory` where there is no room for
/// it.
pub fn lists(
    alloc: Global,
    names: &NameTypes,
    taken: &Taken<'_>,
    node: &Node,
) -> Result<Option<Boxed<Node>>, NoMemory>
    ensures { IfOk result (λ o. IsOfKind false folds_behind_asked (taken_supply taken.now) (pure_names names.now) (pure_node node.now)
        (option_map pure_node o)) }
{
    if let Some(new) = counted_apart(alloc, names, taken, node)? {
        return Ok(Some(new));
    }
    if let Some(new) = nested(alloc, node)? {
        return Ok(Some(new));
    }
    if let Some(new) = listed_plainly(alloc, node)? {
        return Ok(Some(new));
    }
    if let Some(new) = set_of_term(alloc, taken, node)? {
        return Ok(Some(new));
    }
    Ok(None)
}
