//! Rules of indices of several steps, of relations applied, and of views that are parts of other views.
ghost use Rattle.std.specs.Prelude.{false, IfOk, option_map};
ghost use Rattle.ess_core_nodes.specs.NodeViews.{pure_node};
ghost use Rattle.ess_node_types.specs.TypedNames.{pure_names};
ghost use Rattle.ess_kind_rules.specs.Supplies.{taken_supply};
ghost use Rattle.ess_kind_rules.specs.Kinds.{IsOfKind};
ghost use Rattle.ess_kind_rules.specs.AskedKinds.{views_asked};

use crate::truths::{truth_at_an_argument, truth_in_a_matrix};
use crate::{Taken, related};
use ess_core_nodes::Node;
use ess_node_types::NameTypes;
use ess_rows::{Boxed, NoMemory};
use ess_rules_children::component_view;
use ess_rules_picked::step_apart;
use ess_rules_views::atom_cell;
use std::alloc::Global;

/// What the first of these rules that fires makes of the root, or nothing where none of them fires. `NoMemory` where there is no room for
/// it.
pub fn views(
    alloc: Global,
    names: &NameTypes,
    _taken: &Taken<'_>,
    node: &Node,
) -> Result<Option<Boxed<Node>>, NoMemory>
    ensures { IfOk result (λ o. IsOfKind false views_asked (taken_supply _taken.now) (pure_names names.now) (pure_node node.now)
        (option_map pure_node o)) }
{
    if let Some(new) = step_apart(alloc, node)? {
        return Ok(Some(new));
    }
    if let Some(new) = related(alloc, names, node)? {
        return Ok(Some(new));
    }
    if let Some(new) = atom_cell(alloc, node)? {
        return Ok(Some(new));
    }
    if let Some(new) = component_view(alloc, node)? {
        return Ok(Some(new));
    }
    if let Some(new) = truth_in_a_matrix(alloc, node)? {
        return Ok(Some(new));
    }
    if let Some(new) = truth_at_an_argument(alloc, node)? {
        return Ok(Some(new));
    }
    Ok(None)
}
