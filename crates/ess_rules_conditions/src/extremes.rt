//! The least and the greatest of numbers under a condition that reads cells.
ghost use Rattle.std.specs.Prelude.{◌≡◌, ◌&&◌, false, option_map, IfOk};
ghost use Rattle.ess_semantics.specs.Refined.{is_refined as is_refined_ex, are_refined_gens as are_refined};
ghost use Rattle.ess_semantics.specs.Trees.{comp_ex, fun1};
ghost use Rattle.ess_core_nodes.specs.NodeViews.{pure_node, pure_gens};
ghost use Rattle.ess_refine_laws.specs.Everywhere.{everywhere as is_everywhere, everywhere_gens as are_everywhere};
ghost use Rattle.ess_refine_laws.specs.ExtremeRules.{is_extreme as picks, opposite as turned, either_number as either};
ghost use Rattle.ess_refine_laws.specs.ExtremeRules.{extreme_condition as conditional, are_none as no_more};
ghost use Rattle.ess_refine_laws.specs.Copies.{opposite_of as opposite_number};
ghost use Rattle.ess_rules_conditions.specs.PartedViews.{pure_parted};

use crate::parted::{Parted, at_last_condition};
use ess_core::{Fun, Op1, Op2};
use ess_core_nodes::{Gen, Node, Op};
use ess_node_building::{binary, comprehension, unary, word};
use ess_node_forms::{are_refined_gens, is_refined};
use ess_node_operands::{Operands, by_number};
use ess_rows::{Boxed, NoMemory};
use ess_rules_everywhere::{chosen, everywhere, everywhere_gens};
use std::alloc::Global;

/// Whether the word picks the least or the greatest.
pub(crate) fn is_extreme(word: Fun) -> bool
    ensures { result ≡ picks word }
{
    match word {
        Fun::Min | Fun::Max => true,
        _ => false,
    }
}

/// The greatest where the word picks the least, else the least.
fn opposite(word: Fun) -> Fun
    ensures { result ≡ turned word }
{
    match word {
        Fun::Min => Fun::Max,
        _ => Fun::Min,
    }
}

/// The greatest where the word picks the least, else the least, of the numbers of `[e | gs]` once the condition is left out.
/// `NoMemory` where there is no room for it.
pub fn opposite_of(
    alloc: Global,
    fun: Fun,
    body: &Node,
    parts: &Parted,
) -> Result<Boxed<Node>, NoMemory>
    ensures { IfOk result (λ n. pure_node n ≡ opposite_number fun (pure_node body.now) (pure_parted parts.now)) }
{
    let there = everywhere(alloc, body)?;
    let before = everywhere_gens(alloc, parts.before)?;
    let list = comprehension(alloc, there, before)?;
    word(alloc, false, opposite(fun), list)
}

/// `min([e | gs, c])` is `min([toInt(c) * n + toInt(!c) * m | hs])`, where c reads a cell, n and hs are e and gs made to be there
/// everywhere, and m, which is given, is another way to say `max([n | hs])`. So it is with `max`. `NoMemory` where there is no room
/// for it.
#[tactic(auto, using(ess_core_nodes::proofs::NodeEquations::pure_seen_is))]
pub fn extreme_condition(
    alloc: Global,
    opposite: &Node,
    node: &Node,
) -> Result<Option<Boxed<Node>>, NoMemory>
    ensures { IfOk result (λ o. option_map pure_node o ≡ conditional (pure_node opposite.now) (pure_node node.now)) }
{
    match node {
        Node::Op(false, Op::Word(word), operands) => match by_number(operands.as_slice()) {
            Operands::One(list) => match list {
                Node::Comp(body, gens) => extreme_of(
                    alloc,
                    opposite,
                    *word,
                    body.get(),
                    gens.as_slice(),
                ),
                _ => Ok(None),
            },
            _ => Ok(None),
        },
        _ => Ok(None),
    }
}

/// The same of a comprehension.
fn extreme_of(
    alloc: Global,
    opposite: &Node,
    fun: Fun,
    body: &Node,
    gens: &[Gen],
) -> Result<Option<Boxed<Node>>, NoMemory>
    ensures { IfOk result (λ o. option_map pure_node o
        ≡ conditional (pure_node opposite.now) (fun1 false fun (comp_ex (pure_node body.now) (pure_gens gens.now)))) }
{
    match at_last_condition(gens) {
        None => Ok(None),
        Some(parts) => {
            if can_choose(opposite, fun, body, &parts) {
                Ok(Some(chosen_extreme(alloc, opposite, fun, body, &parts)?))
            } else {
                Ok(None)
            }
        }
    }
}

/// Whether the word picks the least or the greatest, the condition stands last, and all that is put together is refined.
fn can_choose(opposite: &Node, fun: Fun, body: &Node, parts: &Parted) -> bool
    ensures { result ≡ (picks fun && no_more (pure_parted parts.now).after) && (is_refined_ex (pure_parted parts.now).condition
        && (is_refined_ex (pure_node body.now) && (is_refined_ex (pure_node opposite.now)
        && are_refined (pure_parted parts.now).before))) }
{
    (is_extreme(fun) && are_none(parts.after))
        && (is_refined(parts.condition)
            && (is_refined(body) && (is_refined(opposite) && are_refined_gens(parts.before))))
}

/// Whether there are no generators.
#[tactic(auto, using(crate::proofs::GensBehind::some_gens))]
fn are_none(gens: &[Gen]) -> bool
    ensures { result ≡ no_more (pure_gens gens.now) }
{
    match gens.split_first() {
        None => true,
        Some(_) => false,
    }
}

/// `min([toInt(c) * n + toInt(!c) * m | hs])`
fn chosen_extreme(
    alloc: Global,
    opposite: &Node,
    fun: Fun,
    body: &Node,
    parts: &Parted,
) -> Result<Boxed<Node>, NoMemory>
    ensures { IfOk result (λ n. pure_node n ≡ fun1 false fun (comp_ex (either (pure_parted parts.now).condition
        (is_everywhere (pure_node body.now)) (pure_node opposite.now)) (are_everywhere (pure_parted parts.now).before))) }
{
    let there = everywhere(alloc, body)?;
    let item = either_number(alloc, parts.condition, there, opposite)?;
    let before = everywhere_gens(alloc, parts.before)?;
    let list = comprehension(alloc, item, before)?;
    word(alloc, false, fun, list)
}

/// `toInt(c) * n + toInt(!c) * m`: n where the condition is true, else m.
fn either_number(
    alloc: Global,
    condition: &Node,
    number: Boxed<Node>,
    other: &Node,
) -> Result<Boxed<Node>, NoMemory>
    ensures { IfOk result (λ n. pure_node n ≡ either (pure_node condition.now) (pure_node number) (pure_node other.now)) }
{
    let holds = chosen(alloc, condition.copy(alloc)?)?;
    let first = binary(alloc, false, Op2::Times, holds, number)?;
    let fails = unary(alloc, true, Op1::Not, condition.copy(alloc)?)?;
    let fails = chosen(alloc, fails)?;
    let second = binary(alloc, false, Op2::Times, fails, other.copy(alloc)?)?;
    binary(alloc, false, Op2::Plus, first, second)
}
