//! Lookups of the form of a comprehension: of a part with a member in it, of a view of a function at an argument.
ghost use Rattle.std.specs.Prelude.{◌≡◌, option_map, IfOk};
ghost use Rattle.ess_core_nodes.specs.NodeViews.{pure_node};
ghost use Rattle.ess_node_types.specs.TypedNames.{pure_names};
ghost use Rattle.ess_kind_rules_laws.specs.TermLookups.{party_lookup, function_view_lookup, one_lookup};
ghost use Rattle.ess_rules_offers.specs.Parties.{a_party, part_with};

use crate::matrices::view_item_lookup;
use ess_core::{Fun, Op2};
use ess_core_nodes::{Node, Op};
use ess_node_building::{binary, comprehension, condition, from, name, word};
use ess_node_types::NameTypes;
use ess_rows::{Boxed, NoMemory, Row, Text};
use ess_rules_forms::pair_in;
use ess_rules_lookups::function_lookup;
use ess_rules_pairs::{function_nd_lookup, function_nd_partial_lookup};
use ess_rules_picked::names_of_argument;
use ess_rules_views::{function_1d_lookup, function_1d_partial_lookup};
use std::alloc::Global;

/// `party(a, p)`: the part of p, called by the name, with a in it. Nothing for another tree.
#[tactic(auto, using(crate::proofs::PartyForms::party_by_operands))]
fn party_lookup(alloc: Global, one: &Text, node: &Node) -> Result<Option<Boxed<Node>>, NoMemory>
    ensures { IfOk result (λ o. option_map pure_node o ≡ party_lookup one.now (pure_node node.now)) }
{
    match a_party(node) {
        Some((member, partition)) => Ok(Some(part_with(alloc, one, member, partition)?)),
        None => Ok(None),
    }
}

/// The member and the partition of which a term is the party.
#[tactic(auto, using(ess_core_nodes::proofs::NodeEquations::pure_seen_is, crate::proofs::PartyForms::party_of_both))]
fn a_party(node: &Node) -> Option<(&Node, &Node)>
    ensures { option_map (λ p. (pure_node p.0.now, pure_node p.1.now)) result ≡ a_party (pure_node node.now) }
{
    match node {
        Node::Op(_, Op::Word(Fun::Party), operands) => pair_in(operands.as_slice()),
        _ => None,
    }
}

/// The part of a partition, called by the name, with a member in it.
#[tactic(auto, using(ess_core_nodes::proofs::NodeEquations::pure_gen_if, ess_core_nodes::proofs::NodeEquations::pure_gen_from))]
fn part_with(
    alloc: Global,
    one: &Text,
    member: &Node,
    partition: &Node,
) -> Result<Boxed<Node>, NoMemory>
    ensures { IfOk result (λ n. pure_node n ≡ part_with one.now (pure_node member.now) (pure_node partition.now)) }
{
    let parts = word(alloc, false, Fun::Parts, partition.copy(alloc)?)?;
    let part = name(alloc, one)?;
    let test = binary(alloc, true, Op2::Member, member.copy(alloc)?, part)?;
    let mut gens = Row::new(alloc);
    gens.push(from(alloc, one, parts)?)?;
    gens.push(condition(test))?;
    let body = name(alloc, one)?;
    comprehension(alloc, body, gens)
}

/// A view of a function at an argument, by its kind. The names are for the components of an argument. Nothing for another tree.
fn function_view_lookup(
    alloc: Global,
    one: &Text,
    names: &[Text],
    node: &Node,
) -> Result<Option<Boxed<Node>>, NoMemory>
    ensures { IfOk result (λ o. option_map pure_node o ≡ function_view_lookup one.now names.now (pure_node node.now)) }
{
    if let Some(found) = function_1d_lookup(alloc, one, node)? {
        return Ok(Some(found));
    }
    if let Some(found) = function_1d_partial_lookup(alloc, one, node)? {
        return Ok(Some(found));
    }
    if let Some(found) = function_nd_lookup(alloc, names, node)? {
        return Ok(Some(found));
    }
    function_nd_partial_lookup(alloc, names, node)
}

/// A view of a function at an argument, an item of a view of a matrix, a part, any other function at an argument. Nothing for another
/// tree.
pub(crate) fn one_lookup(
    alloc: Global,
    types: &NameTypes,
    one: &Text,
    names: &[Text],
    node: &Node,
) -> Result<Option<Boxed<Node>>, NoMemory>
    ensures { IfOk result (λ o. option_map pure_node o ≡ one_lookup (pure_names types.now) one.now names.now (pure_node node.now)) }
{
    let names = names_of_argument(names, node);
    if let Some(found) = function_view_lookup(alloc, one, names, node)? {
        return Ok(Some(found));
    }
    if let Some(found) = view_item_lookup(alloc, one, node)? {
        return Ok(Some(found));
    }
    if let Some(found) = party_lookup(alloc, one, node)? {
        return Ok(Some(found));
    }
    function_lookup(alloc, types, one, node)
}
