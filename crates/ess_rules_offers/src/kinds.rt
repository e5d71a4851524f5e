//! Listings of views whose sizes are those of their own domains, and of values that are kept as another value.
ghost use Rattle.std.specs.Prelude.{◌≡◌, option_map, IfOk};
ghost use Rattle.ess_core_nodes.specs.NodeViews.{pure_node};
ghost use Rattle.ess_rules_laws.specs.SlotListings.{explicit_listing, marker_listing, flags_listing};
ghost use Rattle.ess_rules_laws.specs.DummyListings.{dummy_listing};
ghost use Rattle.ess_views_laws.specs.MultisetViews.{occurrence_members, repetition_members, counted_members};
ghost use Rattle.ess_views_laws.specs.PartitionViews.{partition_parts};
ghost use Rattle.ess_kind_rules_laws.specs.ViewListings.{dom_seen, slots_seen, dummy_of_members, occurrences_of, partitioned, kept_listing};
ghost use Rattle.ess_rules_forms.specs.PureAlternatives.{pure_alternative};

use crate::sizes::{dummy_seen, occurrences_seen, partitioned_seen, slots_seen};
use ess_core_nodes::Node;
use ess_node_building::{from, name};
use ess_rows::{NoMemory, Row, Text};
use ess_rules_children::kept_as;
use ess_rules_forms::Alternative;
use ess_rules_kinds::{
    counted_members, dummy_listing, explicit_listing, flags_listing, marker_listing,
    occurrence_members, partition_parts, repetition_members,
};
use std::alloc::Global;

/// A set in slots all in use.
pub(crate) fn explicit(
    alloc: Global,
    one: &Text,
    view: &Node,
) -> Result<Option<Alternative>, NoMemory>
    ensures { IfOk result (λ o. option_map pure_alternative o
        ≡ explicit_listing one.now (slots_seen (pure_node view.now)) (pure_node view.now)) }
{
    let slots = slots_seen(alloc, view)?;
    explicit_listing(alloc, one, slots.get(), view)
}

/// A set in slots up to a marker.
pub(crate) fn marked(
    alloc: Global,
    one: &Text,
    view: &Node,
) -> Result<Option<Alternative>, NoMemory>
    ensures { IfOk result (λ o. option_map pure_alternative o
        ≡ marker_listing one.now (slots_seen (pure_node view.now)) (pure_node view.now)) }
{
    let slots = slots_seen(alloc, view)?;
    marker_listing(alloc, one, slots.get(), view)
}

/// A set in slots with flags.
pub(crate) fn flagged(
    alloc: Global,
    one: &Text,
    view: &Node,
) -> Result<Option<Alternative>, NoMemory>
    ensures { IfOk result (λ o. option_map pure_alternative o
        ≡ flags_listing one.now (slots_seen (pure_node view.now)) (pure_node view.now)) }
{
    let slots = slots_seen(alloc, view)?;
    flags_listing(alloc, one, slots.get(), view)
}

/// A set in slots of which those not in use have a dummy.
pub(crate) fn with_dummy(
    alloc: Global,
    one: &Text,
    view: &Node,
) -> Result<Option<Alternative>, NoMemory>
    ensures { IfOk result (λ o. option_map pure_alternative o
        ≡ dummy_listing one.now (slots_seen (pure_node view.now)) (dummy_of_members (dom_seen (pure_node view.now))) (pure_node view.now)) }
{
    let slots = slots_seen(alloc, view)?;
    let dummy = dummy_seen(alloc, view)?;
    dummy_listing(alloc, one, slots.get(), dummy.get(), view)
}

/// A multiset by how often each member of the inner domain is there.
pub(crate) fn occurring(
    alloc: Global,
    one: &Text,
    other: &Text,
    view: &Node,
) -> Result<Option<Alternative>, NoMemory>
    ensures { IfOk result (λ o. option_map pure_alternative o
        ≡ occurrence_members one.now other.now (occurrences_of (dom_seen (pure_node view.now))) (pure_node view.now)) }
{
    let most = occurrences_seen(alloc, view)?;
    occurrence_members(alloc, one, other, most.get(), view)
}

/// A multiset in slots up to a marker.
pub(crate) fn repeated(
    alloc: Global,
    one: &Text,
    view: &Node,
) -> Result<Option<Alternative>, NoMemory>
    ensures { IfOk result (λ o. option_map pure_alternative o
        ≡ repetition_members one.now (slots_seen (pure_node view.now)) (pure_node view.now)) }
{
    let slots = slots_seen(alloc, view)?;
    repetition_members(alloc, one, slots.get(), view)
}

/// A multiset in slots with how often the member of each is there.
pub(crate) fn counted(
    alloc: Global,
    one: &Text,
    other: &Text,
    view: &Node,
) -> Result<Option<Alternative>, NoMemory>
    ensures { IfOk result (λ o. option_map pure_alternative o
        ≡ counted_members one.now other.now (slots_seen (pure_node view.now)) (occurrences_of (dom_seen (pure_node view.now)))
        (pure_node view.now)) }
{
    let slots = slots_seen(alloc, view)?;
    let most = occurrences_seen(alloc, view)?;
    counted_members(alloc, one, other, slots.get(), most.get(), view)
}

/// A partition by the number of each member's part.
pub(crate) fn numbered(
    alloc: Global,
    one: &Text,
    view: &Node,
) -> Result<Option<Alternative>, NoMemory>
    ensures { IfOk result (λ o. option_map pure_alternative o
        ≡ partition_parts one.now (partitioned (dom_seen (pure_node view.now))) (pure_node view.now)) }
{
    let members = partitioned_seen(alloc, view)?;
    partition_parts(alloc, one, members.get(), view)
}

/// A value that is kept as another value.
pub(crate) fn kept(alloc: Global, one: &Text, view: &Node) -> Result<Option<Alternative>, NoMemory>
    ensures { IfOk result (λ o. option_map pure_alternative o ≡ kept_listing one.now (pure_node view.now)) }
{
    match kept_as(alloc, view)? {
        Some(child) => {
            let mut gens = Row::new(alloc);
            gens.push(from(alloc, one, child)?)?;
            let item = name(alloc, one)?;
            Ok(Some(Alternative { gens, item }))
        }
        None => Ok(None),
    }
}
