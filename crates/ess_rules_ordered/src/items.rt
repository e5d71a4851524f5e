//! Scalars that are items of comprehensions, and operators on compound ones and on comprehensions over what is picked.
ghost use Rattle.std.specs.Prelude.{◌≡◌, map, IfOk, option_map};
ghost use Rattle.ess_core_nodes.specs.NodeViews.{pure_node};
ghost use Rattle.ess_node_types.specs.TypedNames.{pure_names};
ghost use Rattle.ess_rules_forms.specs.PureAlternatives.{pure_alternative};
ghost use Rattle.ess_ordered_laws.specs.OrderedRules.{keeps_order as order_kept, operand_lookup as looked_operand, over_operand as operand_item, at_operand as item_at, ordered_rewrite, an_item as scalar_item, of_an_item as compound_item};
ghost use Rattle.ess_rules_ordered.specs.Supplies.{item_supply};

use crate::lookups::ordered_lookup;
use crate::names::ItemNames;
use crate::picked::picked_source;
use crate::scalars::{gives_scalar, is_compound};
use ess_core_nodes::{Node, Op};
use ess_node_types::NameTypes;
use ess_rows::{Boxed, NoMemory, Row};
use ess_rules_alternatives::{select_each, select_whole_each};
use ess_rules_forms::Alternative;
use ess_rules_lookups::nth;
use ess_rules_opening::forgets_order;
use std::alloc::Global;

/// A scalar that is an item of a comprehension, or is picked out of one. `NoMemory` where there is no room for it.
pub fn an_item(
    alloc: Global,
    types: &NameTypes,
    names: &ItemNames<'_>,
    node: &Node,
) -> Result<Option<Boxed<Node>>, NoMemory>
    ensures { IfOk result (λ o. option_map pure_node o
        ≡ ordered_rewrite (item_supply names.now) (pure_names types.now) scalar_item (pure_node node.now)) }
{
    let found = ordered_lookup(alloc, names.counted, names.parts, node)?;
    match found {
        Some(found) => {
            if gives_scalar(alloc, types, node)? {
                select_whole_each(alloc, names.item, found.as_slice(), node)
            } else {
                Ok(None)
            }
        }
        None => Ok(None),
    }
}

/// A scalar root over a compound operand that is such an item, or a comprehension over what is picked. `NoMemory` where there is no room
/// for it.
pub fn of_an_item(
    alloc: Global,
    types: &NameTypes,
    names: &ItemNames<'_>,
    node: &Node,
) -> Result<Option<Boxed<Node>>, NoMemory>
    ensures { IfOk result (λ o. option_map pure_node o
        ≡ ordered_rewrite (item_supply names.now) (pure_names types.now) compound_item (pure_node node.now)) }
{
    if let Some(new) = at_operand(alloc, types, names, 1, node)? {
        return Ok(Some(new));
    }
    at_operand(alloc, types, names, 2, node)
}

/// The same of the operand at a place.
#[tactic(auto, using(ess_core_nodes::proofs::NodeEquations::pure_seen_is))]
fn at_operand(
    alloc: Global,
    types: &NameTypes,
    names: &ItemNames<'_>,
    at: u64,
    node: &Node,
) -> Result<Option<Boxed<Node>>, NoMemory>
    ensures { IfOk result (λ o. option_map pure_node o
        ≡ item_at (item_supply names.now) (pure_names types.now) at (pure_node node.now)) }
{
    match node {
        Node::Op(_, _, operands) => match nth(operands.as_slice(), at) {
            Some(operand) => over_operand(alloc, types, names, at, node, operand),
            None => Ok(None),
        },
        _ => Ok(None),
    }
}

/// The same of this operand.
fn over_operand(
    alloc: Global,
    types: &NameTypes,
    names: &ItemNames<'_>,
    at: u64,
    node: &Node,
    operand: &Node,
) -> Result<Option<Boxed<Node>>, NoMemory>
    ensures { IfOk result (λ o. option_map pure_node o
        ≡ operand_item (item_supply names.now) (pure_names types.now) at (pure_node node.now) (pure_node operand.now)) }
{
    let found = operand_lookup(alloc, types, names, node, operand)?;
    match found {
        Some(found) => {
            if gives_scalar(alloc, types, node)? && is_compound(alloc, types, operand)? {
                select_each(alloc, names.item, at, found.as_slice(), node)
            } else {
                Ok(None)
            }
        }
        None => Ok(None),
    }
}

/// What an operand of the root offers in order: what is picked out of an item, or a comprehension over what is picked, where order counts.
fn operand_lookup(
    alloc: Global,
    types: &NameTypes,
    names: &ItemNames<'_>,
    node: &Node,
    operand: &Node,
) -> Result<Option<Row<Alternative>>, NoMemory>
    ensures { IfOk result (λ o. option_map (map pure_alternative) o
        ≡ looked_operand (item_supply names.now) (pure_names types.now) (pure_node node.now) (pure_node operand.now)) }
{
    if let Some(found) = ordered_lookup(alloc, names.counted, names.parts, operand)? {
        return Ok(Some(found));
    }
    if keeps_order(node) {
        picked_source(alloc, types, names, operand)
    } else {
        Ok(None)
    }
}

/// Whether order counts in the operands of the root.
#[tactic(auto, using(ess_core_nodes::proofs::NodeEquations::pure_seen_is))]
fn keeps_order(node: &Node) -> bool
    ensures { result ≡ order_kept (pure_node node.now) }
{
    match node {
        Node::Op(_, Op::Word(fun), _) => !forgets_order(*fun),
        _ => true,
    }
}
