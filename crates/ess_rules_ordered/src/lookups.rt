//! The lookup of an item of a comprehension by its number, and of what is picked out of it.
ghost use Rattle.std.specs.Prelude.{◌≡◌, Bool, [], ◌∷◌, map, option_map, IfOk};
ghost use Rattle.ess_semantics.specs.Trees.{by_value, index, node_ex};
ghost use Rattle.ess_core.specs.TreeViews.{pure_pat};
ghost use Rattle.ess_core_nodes.specs.NodeViews.{pure_node, pure_nodes, pure_gens, pure_dom};
ghost use Rattle.ess_rules_forms.specs.PureAlternatives.{pure_alternative};
ghost use Rattle.ess_ordered_laws.specs.NumberedItems.{numbered_over as over_numbered, numbered_lookup as numbered, ordered_lookup as ordered};
ghost use Rattle.ess_rules_generators.specs.GeneratorParts.{over_parts};
ghost use Rattle.ess_rules_ordered.specs.AloneForms.{alone_over as over_alone};

use crate::numbered::numbered_gens;
use crate::places::{is_atom_dom, numbered_item};
use ess_core::Pat;
use ess_core_nodes::{Gen, Node, NodeDom, Op, Step};
use ess_node_operands::{Operands, by_number};
use ess_rows::{NoMemory, Row, Text};
use ess_rules_alternatives::lookup_through_each;
use ess_rules_folds::forms::{are_no_gens, name_in};
use ess_rules_forms::Alternative;
use ess_rules_picked::picked_within;
use std::alloc::Global;

/// What is picked out of an item of a comprehension, at any depth, as alternatives of which at most one has an item. The first name is
/// for members that are counted, the others for what is picked within, and behind these for generators. Nothing for other trees, or
/// where there are too few names; `NoMemory` where there is no room for it.
#[tactic(auto, using(crate::proofs::NumberedForms::ordered_alone, crate::proofs::NumberedForms::ordered_within))]
pub(crate) fn ordered_lookup(
    alloc: Global,
    counted: &Text,
    names: &[Text],
    node: &Node,
) -> Result<Option<Row<Alternative>>, NoMemory>
    ensures { IfOk result (λ o. option_map (map pure_alternative) o ≡ ordered counted.now names.now (pure_node node.now)) }
{
    match names.split_first() {
        None => Ok(None),
        Some((item, rest)) => match picked_within(node) {
            None => numbered_lookup(alloc, counted, rest, node),
            Some(operand) => match ordered_lookup(alloc, counted, rest, operand)? {
                None => Ok(None),
                Some(offered) => lookup_through_each(alloc, item, 1, offered.as_slice(), node),
            },
        },
    }
}

/// An item of a comprehension by its number.
#[tactic(auto, using(ess_core_nodes::proofs::NodeEquations::pure_seen_is))]
fn numbered_lookup(
    alloc: Global,
    counted: &Text,
    names: &[Text],
    node: &Node,
) -> Result<Option<Row<Alternative>>, NoMemory>
    ensures { IfOk result (λ o. option_map (map pure_alternative) o ≡ numbered counted.now names.now (pure_node node.now)) }
{
    match node {
        Node::Op(_, Op::Index(steps), operands) => match steps.as_slice().split_first() {
            Some((Step::Value, rest)) => match rest.split_first() {
                None => item_of(alloc, counted, names, operands.as_slice()),
                Some(_) => Ok(None),
            },
            _ => Ok(None),
        },
        _ => Ok(None),
    }
}

/// The same of a comprehension and a number.
#[tactic(auto, using(ess_core_nodes::proofs::NodeEquations::pure_seen_is))]
fn item_of(
    alloc: Global,
    counted: &Text,
    names: &[Text],
    operands: &[Node],
) -> Result<Option<Row<Alternative>>, NoMemory>
    ensures { IfOk result (λ o. (b : Bool) → option_map (map pure_alternative) o
        ≡ numbered counted.now names.now (node_ex b (index (by_value ∷ [])) (pure_nodes operands.now))) }
{
    match by_number(operands) {
        Operands::Two(list, at) => match list {
            Node::Comp(item, gens) => {
                numbered_over(alloc, counted, names, item.get(), gens.as_slice(), at)
            }
            _ => Ok(None),
        },
        _ => Ok(None),
    }
}

/// The same by the parts of the comprehension. Over the domain of an atom alone no name is taken but that of members that are counted.
#[tactic(auto, using(crate::proofs::NumberedForms::over_by_parts))]
fn numbered_over(
    alloc: Global,
    counted: &Text,
    names: &[Text],
    item: &Node,
    gens: &[Gen],
    at: &Node,
) -> Result<Option<Row<Alternative>>, NoMemory>
    ensures { IfOk result (λ o. option_map (map pure_alternative) o
        ≡ over_numbered counted.now names.now (pure_node item.now) (pure_gens gens.now) (pure_node at.now)) }
{
    let found = match alone_over(gens) {
        Some((bound, dom)) => {
            if !is_atom_dom(dom) {
                return Ok(None);
            }
            Some(numbered_item(alloc, counted, bound, dom, item, at)?)
        }
        None => numbered_gens(alloc, names, item, gens, at)?,
    };
    let Some(one) = found else {
        return Ok(None);
    };
    let mut all = Row::new(alloc);
    all.push(one)?;
    Ok(Some(all))
}

/// A name over a domain, alone.
fn alone_over(gens: &[Gen]) -> Option<(&Text, &NodeDom)>
    ensures { option_map (λ o. (o.0.now, pure_dom o.1.now)) result ≡ over_alone (pure_gens gens.now) }
{
    let Some((pat, dom, rest)) = over_in(gens) else {
        return None;
    };
    if !are_no_gens(rest) {
        return None;
    }
    match name_in(pat) {
        Some(bound) => Some((bound, dom)),
        None => None,
    }
}

/// A first generator over a domain: its pattern, the domain, and what stands behind it.
#[tactic(auto, using(ess_core_nodes::proofs::NodeEquations::pure_gen_over, ess_core_nodes::proofs::NodeEquations::pure_gen_from, ess_core_nodes::proofs::NodeEquations::pure_gen_if))]
fn over_in(gens: &[Gen]) -> Option<(&Pat, &NodeDom, &[Gen])>
    ensures { option_map (λ s. (pure_pat s.0.now, pure_dom s.1.now, pure_gens s.2.now)) result ≡ over_parts (pure_gens gens.now) }
{
    match gens.split_first() {
        Some((Gen::Over(pat, dom), rest)) => Some((pat, dom.get(), rest)),
        _ => None,
    }
}
