//! Whether none of the rules that are asked fires at any part of a tree.
ghost use Rattle.std.specs.Prelude.{◌≡◌, true, IfOk};
ghost use Rattle.ess_rules.specs.Ruled.{NoneFires};
ghost use Rattle.ess_core_nodes.specs.NodeViews.{pure_node, pure_nodes};
ghost use Rattle.ess_node_types.specs.TypedNames.{pure_names};
ghost use Rattle.ess_refine.specs.Settled.{Settled, AllSettled};

use crate::resting_domains::dom_rests;
use crate::resting_generators::gens_rest;
use ess_core_nodes::Node;
use ess_node_types::{NameTypes, names_behind};
use ess_rows::NoMemory;
use ess_rules::rule_at;
use std::alloc::Global;

/// Whether no rule fires at the root of a tree, where names have these types, with reserved names from `next` on. `NoMemory` where there is
/// no room to ask, or the reserved names can't be counted.
fn root_rests(alloc: Global, node: &Node, names: &NameTypes, next: u64) -> Result<bool, NoMemory>
    ensures { IfOk result (λ b. b ≡ true → NoneFires next (pure_names names.now) (pure_node node.now)) }
{
    let mut taken = next;
    let found = rule_at(alloc, node, names, &mut taken)?;
    Ok(found.is_none())
}

/// Whether no rule fires at any part of a tree, where names have these types, with reserved names from `next` on. `NoMemory` where there is
/// no room to ask, or the reserved names can't be counted.
#[cycle(rests)]
pub(crate) fn rests(
    alloc: Global,
    node: &Node,
    names: &NameTypes,
    next: u64,
) -> Result<bool, NoMemory>
    ensures { IfOk result (λ b. b ≡ true → Settled next (pure_names names.now) (pure_node node.now)) }
{
    if !root_rests(alloc, node, names, next)? {
        return Ok(false);
    }
    match node {
        Node::Op(_, _, operands) => all_rest(alloc, operands.as_slice(), names, next),
        Node::MatrixOn(items, axis) => {
            if !all_rest(alloc, items.as_slice(), names, next)? {
                return Ok(false);
            }
            dom_rests(alloc, axis.get(), names, next)
        }
        Node::Comp(body, gens) => {
            if !gens_rest(alloc, gens.as_slice(), names, next)? {
                return Ok(false);
            }
            let behind = names_behind(alloc, gens.as_slice(), names)?;
            rests(alloc, body.get(), &behind, next)
        }
        Node::Cell(_, _, at) => all_rest(alloc, at.as_slice(), names, next),
        Node::Seen(seen) => {
            let seen = seen.get();
            if !dom_rests(alloc, seen.dom.get(), names, next)? {
                return Ok(false);
            }
            all_rest(alloc, seen.at.as_slice(), names, next)
        }
        Node::Number(_) => Ok(true),
        Node::Truth(_) => Ok(true),
        Node::Name(_) => Ok(true),
    }
}

/// The same of several trees.
#[cycle(rests)]
pub(crate) fn all_rest(
    alloc: Global,
    nodes: &[Node],
    names: &NameTypes,
    next: u64,
) -> Result<bool, NoMemory>
    ensures { IfOk result (λ b. b ≡ true → AllSettled next (pure_names names.now) (pure_nodes nodes.now)) }
{
    for node in nodes {
        if !rests(alloc, node, names, next)? {
            return Ok(false);
        }
    }
    Ok(true)
}
