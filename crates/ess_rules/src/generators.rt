//! Folds over any term that isn't laid open.
ghost use Rattle.std.specs.Prelude.{◌≡◌, IfOk, option_map};
ghost use Rattle.ess_core_nodes.specs.NodeViews.{pure_node};
ghost use Rattle.ess_node_types.specs.TypedNames.{pure_names};
ghost use Rattle.ess_kind_rules.specs.Supplies.{taken_supply};
ghost use Rattle.ess_rules.specs.Ruled.{terms_asked};
ghost use Rattle.ess_rules.specs.Supplies.{IsRewritten};

use ess_core_nodes::Node;
use ess_kind_rules::Taken;
use ess_node_types::NameTypes;
use ess_rows::{Boxed, NoMemory};
use ess_rules_folds::fold_term;
use std::alloc::Global;

/// A fold over a term that isn't laid open. `NoMemory` where there is no room for it.
pub(crate) fn generators(
    alloc: Global,
    _names: &NameTypes,
    taken: &Taken<'_>,
    node: &Node,
) -> Result<Option<Boxed<Node>>, NoMemory>
    ensures { IfOk result (λ o. IsRewritten terms_asked (taken_supply taken.now) (pure_names _names.now) (pure_node node.now)
        (option_map pure_node o)) }
{
    if let Some(new) = fold_term(alloc, taken.one, node)? {
        return Ok(Some(new));
    }
    Ok(None)
}
