//! Rules that take the number of slots of a view, or how many members a partition has.
ghost use Rattle.std.specs.Prelude.{◌≡◌, IfOk, option_map};
ghost use Rattle.ess_core_nodes.specs.NodeViews.{pure_node};
ghost use Rattle.ess_rules_laws.specs.SetSizes.{size_by_slots as by_slots};
ghost use Rattle.ess_views_laws.specs.MultisetViews.{multiset_size as size_of_multiset, multiset_frequency as frequency_in};
ghost use Rattle.ess_views_laws.specs.PartitionViews.{are_together as together, partition_party as party};
ghost use Rattle.ess_kind_rules_laws.specs.ViewListings.{slots_of_operand as operand_slots, partitioned_second as second_partitioned};

use ess_core_nodes::Node;
use ess_rows::{Boxed, NoMemory, Text};
use ess_rules_multisets::{multiset_frequency, multiset_size};
use ess_rules_offers::{partitioned_second, slots_of_operand};
use ess_rules_partitions::{are_together, partition_party};
use ess_rules_views::size_by_slots;
use std::alloc::Global;

/// The size of a set in slots all in use. `NoMemory` where there is no room for it.
pub(crate) fn size_of_slots(alloc: Global, node: &Node) -> Result<Option<Boxed<Node>>, NoMemory>
    ensures { IfOk result (λ o. option_map pure_node o ≡ by_slots (operand_slots (pure_node node.now)) (pure_node node.now)) }
{
    let slots = slots_of_operand(alloc, node)?;
    size_by_slots(alloc, slots.get(), node)
}

/// The size of a multiset. `NoMemory` where there is no room for it.
pub(crate) fn size_of_a_multiset(
    alloc: Global,
    one: &Text,
    node: &Node,
) -> Result<Option<Boxed<Node>>, NoMemory>
    ensures { IfOk result (λ o. option_map pure_node o
        ≡ size_of_multiset one.now (operand_slots (pure_node node.now)) (pure_node node.now)) }
{
    let slots = slots_of_operand(alloc, node)?;
    multiset_size(alloc, one, slots.get(), node)
}

/// How often a member is in a multiset. `NoMemory` where there is no room for it.
pub(crate) fn frequency_by_cells(
    alloc: Global,
    one: &Text,
    node: &Node,
) -> Result<Option<Boxed<Node>>, NoMemory>
    ensures { IfOk result (λ o. option_map pure_node o
        ≡ frequency_in one.now (operand_slots (pure_node node.now)) (pure_node node.now)) }
{
    let slots = slots_of_operand(alloc, node)?;
    multiset_frequency(alloc, one, slots.get(), node)
}

/// Whether members lie in one part. `NoMemory` where there is no room for it.
pub(crate) fn lie_together(
    alloc: Global,
    one: &Text,
    other: &Text,
    node: &Node,
) -> Result<Option<Boxed<Node>>, NoMemory>
    ensures { IfOk result (λ o. option_map pure_node o
        ≡ together one.now other.now (second_partitioned (pure_node node.now)) (pure_node node.now)) }
{
    let members = partitioned_second(alloc, node)?;
    are_together(alloc, one, other, members.get(), node)
}

/// The part of a member. `NoMemory` where there is no room for it.
pub(crate) fn party_by_number(alloc: Global, node: &Node) -> Result<Option<Boxed<Node>>, NoMemory>
    ensures { IfOk result (λ o. option_map pure_node o ≡ party (second_partitioned (pure_node node.now)) (pure_node node.now)) }
{
    let members = partitioned_second(alloc, node)?;
    partition_party(alloc, members.get(), node)
}
