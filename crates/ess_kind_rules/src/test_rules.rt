//! Rules of results behind a flag, and of tests of members.
ghost use Rattle.std.specs.Prelude.{false, IfOk, option_map};
ghost use Rattle.ess_core_nodes.specs.NodeViews.{pure_node};
ghost use Rattle.ess_node_types.specs.TypedNames.{pure_names};
ghost use Rattle.ess_kind_rules.specs.Supplies.{taken_supply};
ghost use Rattle.ess_kind_rules.specs.Kinds.{IsOfKind};
ghost use Rattle.ess_kind_rules.specs.AskedKinds.{tests_asked};

use crate::Taken;
use crate::truths::truth_behind_a_flag;
use ess_core_nodes::Node;
use ess_node_types::NameTypes;
use ess_rows::{Boxed, NoMemory};
use ess_rules_children::asked_of_child;
use ess_rules_multisets::multiset_member;
use ess_rules_partitions::is_participant;
use ess_rules_views::{defined_where_flagged, member_by_cell};
use std::alloc::Global;

/// What the first of these rules that fires makes of the root, or nothing where none of them fires. `NoMemory` where there is no room for
/// it.
pub fn tests(
    alloc: Global,
    _names: &NameTypes,
    taken: &Taken<'_>,
    node: &Node,
) -> Result<Option<Boxed<Node>>, NoMemory>
    ensures { IfOk result (λ o. IsOfKind false tests_asked (taken_supply taken.now) (pure_names _names.now) (pure_node node.now)
        (option_map pure_node o)) }
{
    if let Some(new) = truth_behind_a_flag(alloc, taken.one, node)? {
        return Ok(Some(new));
    }
    if let Some(new) = asked_of_child(alloc, node)? {
        return Ok(Some(new));
    }
    if let Some(new) = member_by_cell(alloc, node)? {
        return Ok(Some(new));
    }
    if let Some(new) = multiset_member(alloc, taken.one, node)? {
        return Ok(Some(new));
    }
    if let Some(new) = defined_where_flagged(alloc, node)? {
        return Ok(Some(new));
    }
    if let Some(new) = is_participant(alloc, taken.one, node)? {
        return Ok(Some(new));
    }
    Ok(None)
}
