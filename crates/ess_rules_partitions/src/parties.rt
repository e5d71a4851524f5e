//! Parties, numbers of parts, and participants.
ghost use Rattle.std.specs.Prelude.{◌≡◌, true, false, option_map, IfOk};
ghost use Rattle.ess_semantics.specs.declared.words.Op1.{Op1};
ghost use Rattle.ess_semantics.specs.Trees.{ex1, ex2};
ghost use Rattle.ess_core_nodes.specs.NodeViews.{pure_node};
ghost use Rattle.ess_views_laws.specs.PartitionViews.{partition_party, number_of_parts, is_participant};
ghost use Rattle.ess_rules_partitions.specs.Asked.{party_of};
ghost use Rattle.ess_rules_partitions.specs.NumberedViews.{party_at, count_at};
ghost use Rattle.ess_rules_partitions.specs.CodeNumbered.{pure_numbered};

use crate::cells::{is_one_of, number_of};
use crate::forms::{a_party, a_size, the_participants, the_parts};
use crate::numbered::{Numbered, members_of, numbered_view};
use ess_core::{Fun, Op2};
use ess_core_nodes::{Node, Op, copy_nodes};
use ess_node_building::{literal, two};
use ess_rows::{Boxed, NoMemory, Text};
use ess_rules_forms::truth_pair;
use ess_rules_kinds::numbering;
use ess_rules_kinds::pieces::cell;
use std::alloc::Global;

// ---- parties

/// `party(a, v)` has the members with the number of a; the tree says how many members there are. Nothing for another tree; `NoMemory`
/// where there is no room for it.
#[tactic(auto, using(crate::proofs::PartyForms::party_by_operands))]
pub fn partition_party(
    alloc: Global,
    members: &Node,
    node: &Node,
) -> Result<Option<Boxed<Node>>, NoMemory>
    ensures { IfOk result (λ o. option_map pure_node o ≡ partition_party (pure_node members.now) (pure_node node.now)) }
{
    match a_party(node) {
        Some((member, view)) => party_in(alloc, members, member, view),
        None => Ok(None),
    }
}

/// The same of the member and the partition.
#[tactic(auto, using(crate::proofs::PartyForms::party_by_parts))]
fn party_in(
    alloc: Global,
    members: &Node,
    member: &Node,
    view: &Node,
) -> Result<Option<Boxed<Node>>, NoMemory>
    ensures { IfOk result (λ o. option_map pure_node o
        ≡ partition_party (pure_node members.now) (party_of (pure_node member.now) (pure_node view.now))) }
{
    match numbered_view(view) {
        Some(parts) => Ok(Some(party_at(alloc, members, member, &parts)?)),
        None => Ok(None),
    }
}

/// The members with the number of this one.
fn party_at(
    alloc: Global,
    members: &Node,
    member: &Node,
    parts: &Numbered<'_>,
) -> Result<Boxed<Node>, NoMemory>
    ensures { IfOk result (λ n. pure_node n ≡ party_at (pure_node members.now) (pure_node member.now) (pure_numbered parts.now)) }
{
    let function = numbering(alloc, members, parts.members, parts.numbers, parts.at)?;
    let number = number_of(alloc, parts.numbers, parts.at, member)?;
    let operands = two(alloc, function, number)?;
    literal(alloc, Op::Word(Fun::PreImage), operands)
}

// ---- numbers of parts

/// `|parts(v)|` is the number of parts. Nothing for another tree; `NoMemory` where there is no room for it.
#[tactic(auto, using(crate::proofs::PartyForms::count_by_size))]
pub fn number_of_parts(alloc: Global, node: &Node) -> Result<Option<Boxed<Node>>, NoMemory>
    ensures { IfOk result (λ o. option_map pure_node o ≡ number_of_parts (pure_node node.now)) }
{
    match a_size(node) {
        Some(set) => count_of(alloc, set),
        None => Ok(None),
    }
}

/// The same of the set of which it is the size.
#[tactic(auto, using(crate::proofs::PartyForms::count_by_parts))]
fn count_of(alloc: Global, set: &Node) -> Result<Option<Boxed<Node>>, NoMemory>
    ensures { IfOk result (λ o. option_map pure_node o ≡ number_of_parts (ex1 false Op1.Bar (pure_node set.now))) }
{
    match the_parts(set) {
        None => Ok(None),
        Some(view) => match numbered_view(view) {
            Some(parts) => Ok(Some(count_at(alloc, &parts)?)),
            None => Ok(None),
        },
    }
}

/// How many parts there are.
pub(crate) fn count_at(alloc: Global, parts: &Numbered<'_>) -> Result<Boxed<Node>, NoMemory>
    ensures { IfOk result (λ n. pure_node n ≡ count_at (pure_numbered parts.now)) }
{
    let at = copy_nodes(alloc, parts.at)?;
    cell(alloc, false, parts.parts, at)
}

// ---- participants

/// `a in participants(v)`: a is a member of the inner domain, over which the name runs. Nothing for another tree; `NoMemory` where there
/// is no room for it.
#[tactic(auto, using(crate::proofs::PartyForms::participant_by_pair))]
pub fn is_participant(
    alloc: Global,
    one: &Text,
    node: &Node,
) -> Result<Option<Boxed<Node>>, NoMemory>
    ensures { IfOk result (λ o. option_map pure_node o ≡ is_participant one.now (pure_node node.now)) }
{
    match truth_pair(node) {
        Some((Op2::Member, (member, set))) => participant_in(alloc, one, member, set),
        _ => Ok(None),
    }
}

/// The same of the member and the set.
#[tactic(auto, using(crate::proofs::PartyForms::participant_by_members))]
fn participant_in(
    alloc: Global,
    one: &Text,
    member: &Node,
    set: &Node,
) -> Result<Option<Boxed<Node>>, NoMemory>
    ensures { IfOk result (λ o. option_map pure_node o
        ≡ is_participant one.now (ex2 true Op2.Member (pure_node member.now) (pure_node set.now))) }
{
    match the_participants(set) {
        None => Ok(None),
        Some(view) => match members_of(view) {
            Some(dom) => Ok(Some(is_one_of(alloc, one, dom, member)?)),
            None => Ok(None),
        },
    }
}
