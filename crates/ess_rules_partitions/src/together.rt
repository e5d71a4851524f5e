//! Whether members lie in one part.
ghost use Rattle.std.specs.Prelude.{◌≡◌, option_map, IfOk};
ghost use Rattle.ess_core_nodes.specs.NodeViews.{pure_node, pure_nodes};
ghost use Rattle.ess_views_laws.specs.PartitionViews.{have_number_of, are_together};
ghost use Rattle.ess_rules_partitions.specs.Asked.{together_of};
ghost use Rattle.ess_rules_partitions.specs.NumberedViews.{listed_together, in_one_part, lie_together};
ghost use Rattle.ess_rules_partitions.specs.CodeNumbered.{pure_numbered};

use crate::cells::{is_one_of, same_number};
use crate::forms::{a_together, set_items};
use crate::numbered::{Numbered, numbered_view};
use crate::parties::count_at;
use ess_core::{Fun, Op2};
use ess_core_nodes::Node;
use ess_node_building::{binary, comprehension, name, number, truth, word};
use ess_rows::{Boxed, NoMemory, Text};
use ess_rules_forms::{both, every};
use ess_rules_kinds::pieces::{gens_where, slot_cell, slots_dom, up_to};
use std::alloc::Global;

/// `together(s, v)`: the members of s lie in one part. Of a literal the numbers are the same; one term is a member, and of none there is
/// a part; of another set the members have the number of a part. The one name runs over the numbers of parts or over the inner domain,
/// the other over the set; the tree says how many members there are. Nothing for another tree; `NoMemory` where there is no room for it.
#[tactic(auto, using(crate::proofs::TogetherForms::together_by_operands))]
pub fn are_together(
    alloc: Global,
    one: &Text,
    other: &Text,
    members: &Node,
    node: &Node,
) -> Result<Option<Boxed<Node>>, NoMemory>
    ensures { IfOk result (λ o. option_map pure_node o
        ≡ are_together one.now other.now (pure_node members.now) (pure_node node.now)) }
{
    match a_together(node) {
        Some((set, view)) => together_in(alloc, one, other, members, set, view),
        None => Ok(None),
    }
}

/// The same of the set and the partition.
#[tactic(auto, using(crate::proofs::TogetherForms::together_by_parts))]
fn together_in(
    alloc: Global,
    one: &Text,
    other: &Text,
    members: &Node,
    set: &Node,
    view: &Node,
) -> Result<Option<Boxed<Node>>, NoMemory>
    ensures { IfOk result (λ o. option_map pure_node o
        ≡ are_together one.now other.now (pure_node members.now) (together_of (pure_node set.now) (pure_node view.now))) }
{
    match numbered_view(view) {
        Some(parts) => Ok(Some(lie_together(alloc, one, other, members, set, &parts)?)),
        None => Ok(None),
    }
}

/// The same of the parts of the view.
fn lie_together(
    alloc: Global,
    one: &Text,
    other: &Text,
    members: &Node,
    set: &Node,
    parts: &Numbered<'_>,
) -> Result<Boxed<Node>, NoMemory>
    ensures { IfOk result (λ n. pure_node n
        ≡ lie_together one.now other.now (pure_node members.now) (pure_node set.now) (pure_numbered parts.now)) }
{
    match set_items(set) {
        Some(items) => listed_together(alloc, one, items, parts),
        None => in_one_part(alloc, one, other, members, set, parts),
    }
}

/// That these terms lie together.
fn listed_together(
    alloc: Global,
    one: &Text,
    items: &[Node],
    parts: &Numbered<'_>,
) -> Result<Boxed<Node>, NoMemory>
    ensures { IfOk result (λ n. pure_node n ≡ listed_together one.now (pure_nodes items.now) (pure_numbered parts.now)) }
{
    match items.split_first() {
        None => {
            let count = count_at(alloc, parts)?;
            binary(alloc, true, Op2::Gt, count, number(alloc, 0)?)
        }
        Some((first, others)) => match others.split_first() {
            None => is_one_of(alloc, one, parts.members, first),
            Some(_) => have_number_of(alloc, parts.numbers, parts.at, first, others),
        },
    }
}

/// That these terms have the number of the first one.
fn have_number_of(
    alloc: Global,
    numbers: &Text,
    at: &[Node],
    first: &Node,
    others: &[Node],
) -> Result<Boxed<Node>, NoMemory>
    ensures { IfOk result (λ n. pure_node n
        ≡ have_number_of numbers.now (pure_nodes at.now) (pure_node first.now) (pure_nodes others.now)) }
{
    match others.split_first() {
        None => truth(alloc, true),
        Some((other, rest)) => {
            let same = same_number(alloc, numbers, at, first, other)?;
            match rest.split_first() {
                None => Ok(same),
                Some(_) => both(
                    alloc,
                    same,
                    have_number_of(alloc, numbers, at, first, rest)?,
                ),
            }
        }
    }
}

/// That the members of a set have the number of some part.
fn in_one_part(
    alloc: Global,
    one: &Text,
    other: &Text,
    members: &Node,
    set: &Node,
    parts: &Numbered<'_>,
) -> Result<Boxed<Node>, NoMemory>
    ensures { IfOk result (λ n. pure_node n
        ≡ in_one_part one.now other.now (pure_node members.now) (pure_node set.now) (pure_numbered parts.now)) }
{
    let number = slot_cell(alloc, false, parts.numbers, parts.at, other)?;
    let test = binary(alloc, true, Op2::Eq, number, name(alloc, one)?)?;
    let all = every(alloc, other, set.copy(alloc)?, test)?;
    let used = up_to(alloc, one, parts.parts, parts.at)?;
    let gens = gens_where(alloc, one, slots_dom(alloc, members)?, used)?;
    let list = comprehension(alloc, all, gens)?;
    word(alloc, true, Fun::Or, list)
}
