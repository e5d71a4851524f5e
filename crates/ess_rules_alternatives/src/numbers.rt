//! The lookup of an item of a list literal: each item where the index is its number.
ghost use Rattle.std.specs.Prelude.{◌≡◌, Bool, false, [], ◌∷◌, ◌+◌, pos, map, option_map, IfOk};
ghost use Rattle.ess_semantics.specs.Trees.{by_value, index, node_ex};
ghost use Rattle.ess_core_nodes.specs.NodeViews.{pure_node, pure_nodes};
ghost use Rattle.ess_rules_laws.specs.AlternativeLookups.{list_lookup as listed, numbered_items as by_number_of};
ghost use Rattle.ess_rules_forms.specs.PureAlternatives.{pure_alternative};
ghost use Rattle.ess_rules_alternatives.specs.Cases.{numbered as where_numbered};

use ess_core::Op2;
use ess_core_nodes::{Node, Op, Step};
use ess_node_building::{binary, condition, number};
use ess_node_operands::{Operands, by_number};
use ess_rows::{NoMemory, Row};
use ess_rules_forms::Alternative;
use std::alloc::Global;

/// `[e1, .., en][i]` is looked up by each item where i is its number, from 1. `NoMemory` where there is no room for it, or a number is
/// outside 64 bits.
#[tactic(auto, using(ess_core_nodes::proofs::NodeEquations::pure_seen_is))]
pub fn list_lookup(alloc: Global, node: &Node) -> Result<Option<Row<Alternative>>, NoMemory>
    ensures { IfOk result (λ o. option_map (map pure_alternative) o ≡ listed (pure_node node.now)) }
{
    match node {
        Node::Op(_, Op::Index(steps), operands) => match steps.as_slice().split_first() {
            Some((Step::Value, rest)) => match rest.split_first() {
                None => item_of(alloc, operands.as_slice()),
                Some(_) => Ok(None),
            },
            _ => Ok(None),
        },
        _ => Ok(None),
    }
}

/// The same of a list and an index.
#[tactic(auto, using(ess_core_nodes::proofs::NodeEquations::pure_seen_is))]
fn item_of(alloc: Global, operands: &[Node]) -> Result<Option<Row<Alternative>>, NoMemory>
    ensures { IfOk result (λ o. (b : Bool) → option_map (map pure_alternative) o
        ≡ listed (node_ex b (index (by_value ∷ [])) (pure_nodes operands.now))) }
{
    match by_number(operands) {
        Operands::Two(list, index) => match list {
            Node::Op(false, Op::Matrix, items) => {
                Ok(Some(numbered_items(alloc, index, items.as_slice())?))
            }
            _ => Ok(None),
        },
        _ => Ok(None),
    }
}

/// Each item where the index is its number.
#[tactic(auto, using(crate::proofs::CaseRows::numbered_behind))]
fn numbered_items(alloc: Global, index: &Node, items: &[Node]) -> Result<Row<Alternative>, NoMemory>
    ensures { IfOk result (λ l. map pure_alternative l ≡ by_number_of 1 (pure_node index.now) (pure_nodes items.now)) }
{
    let mut all = Row::with_capacity(alloc, items.len())?;
    for (place, item) in items.iter().enumerate() {
        let one = numbered(alloc, place, index, item)?;
        all.push(one)?;
    }
    Ok(all)
}

/// An item where the index is the number behind its place. `NoMemory` where there is no room for it, or the number is outside 64 bits.
#[tactic(auto, using(ess_core_nodes::proofs::NodeEquations::pure_gen_if))]
pub fn numbered(
    alloc: Global,
    place: usize,
    index: &Node,
    item: &Node,
) -> Result<Alternative, NoMemory>
    ensures { IfOk result (λ a. pure_alternative a ≡ where_numbered (place + 1) (pure_node index.now) (pure_node item.now)) }
{
    let at = number_behind(place)?;
    let index = index.copy(alloc)?;
    let number = number(alloc, at)?;
    let equal = binary(alloc, true, Op2::Eq, index, number)?;
    let mut gens = Row::new(alloc);
    gens.push(condition(equal))?;
    let item = item.copy(alloc)?;
    Ok(Alternative { gens, item })
}

/// The number behind a place, which counts from 0.
fn number_behind(place: usize) -> Result<i64, NoMemory>
    ensures { IfOk result (λ n. n ≡ pos (place + 1)) }
{
    match place.checked_add(1) {
        None => Err(NoMemory),
        Some(next) => match i64::try_from(next) {
            Ok(number) => Ok(number),
            Err(_) => Err(NoMemory),
        },
    }
}
