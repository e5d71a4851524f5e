//! Rules of items and results where a truth value is asked: the cell at any index.
ghost use Rattle.std.specs.Prelude.{◌≡◌, IfOk, None, option_map, if◌then◌else◌};
ghost use Rattle.ess_semantics.specs.Lists.{and_then};
ghost use Rattle.ess_core_nodes.specs.NodeViews.{pure_node};
ghost use Rattle.ess_rules_laws.specs.FunctionKeys.{result_at_argument as result_at, lookup_behind_flag as flagged};
ghost use Rattle.ess_rules_laws.specs.Lookups.{select_whole as whole};
ghost use Rattle.ess_views_laws.specs.MatrixViews.{item_view as item_seen};
ghost use Rattle.ess_kind_rules_laws.specs.KindRules.{asks_truth as truth_asked};

use ess_core_nodes::Node;
use ess_rows::{Boxed, NoMemory, Text};
use ess_rules_items::item_view;
use ess_rules_lookups::select_whole;
use ess_rules_views::{lookup_behind_flag, result_at_argument};
use std::alloc::Global;

/// Whether the root stands where a truth value is asked.
fn asks_truth(node: &Node) -> bool
    ensures { result ≡ truth_asked (pure_node node.now) }
{
    match node {
        Node::Op(mark, _, _) => *mark,
        _ => false,
    }
}

/// An item of a view of a matrix. `NoMemory` where there is no room for it.
pub(crate) fn truth_in_a_matrix(alloc: Global, node: &Node) -> Result<Option<Boxed<Node>>, NoMemory>
    ensures { IfOk result (λ o. option_map pure_node o
        ≡ (if truth_asked (pure_node node.now) then item_seen (pure_node node.now) else None)) }
{
    if asks_truth(node) {
        item_view(alloc, node)
    } else {
        Ok(None)
    }
}

/// A result of a view of a total function. `NoMemory` where there is no room for it.
pub(crate) fn truth_at_an_argument(
    alloc: Global,
    node: &Node,
) -> Result<Option<Boxed<Node>>, NoMemory>
    ensures { IfOk result (λ o. option_map pure_node o
        ≡ (if truth_asked (pure_node node.now) then result_at (pure_node node.now) else None)) }
{
    if asks_truth(node) {
        result_at_argument(alloc, node)
    } else {
        Ok(None)
    }
}

/// A result of a view of a function with flags. `NoMemory` where there is no room for it.
pub(crate) fn truth_behind_a_flag(
    alloc: Global,
    one: &Text,
    node: &Node,
) -> Result<Option<Boxed<Node>>, NoMemory>
    ensures { IfOk result (λ o. option_map pure_node o ≡ (if truth_asked (pure_node node.now)
        then and_then (flagged (pure_node node.now)) (λ l. whole one.now l (pure_node node.now)) else None)) }
{
    if !asks_truth(node) {
        return Ok(None);
    }
    let found = lookup_behind_flag(alloc, node)?;
    match found {
        Some(lookup) => select_whole(alloc, one, lookup.get(), node),
        None => Ok(None),
    }
}
