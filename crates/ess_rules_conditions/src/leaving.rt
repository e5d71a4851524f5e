//! A condition that reads cells leaves the generators of a fold for its body, the last one first.
ghost use Rattle.std.specs.Prelude.{◌≡◌, ◌&&◌, option_map, IfOk};
ghost use Rattle.ess_semantics.specs.Refined.{is_refined as is_refined_ex, are_refined_gens as are_refined};
ghost use Rattle.ess_semantics.specs.Trees.{comp_ex, fun1};
ghost use Rattle.ess_core_nodes.specs.NodeViews.{pure_node, pure_gens};
ghost use Rattle.ess_rules_laws.specs.SourceRules.{is_marked as folds};
ghost use Rattle.ess_refine_laws.specs.LeavingConditions.{condition_leaves as left, under_condition as under};
ghost use Rattle.ess_rules_conditions.specs.PartedViews.{pure_parted};

use crate::parted::{Parted, at_last_condition};
use ess_core::{Fun, Op2};
use ess_core_nodes::{Gen, Node, Op, copy_gens};
use ess_node_building::{binary, comprehension, number, word};
use ess_node_forms::{are_refined_gens, is_refined};
use ess_node_operands::{Operands, by_number};
use ess_rows::{Boxed, NoMemory};
use ess_rules_everywhere::{chosen, everywhere};
use std::alloc::Global;

/// `F([e | gs, c, hs])` is `F([F([e | hs]) under c | gs])`, where c is the last condition that reads a cell, and c, e and hs are
/// refined. `NoMemory` where there is no room for it.
#[tactic(auto, using(ess_core_nodes::proofs::NodeEquations::pure_seen_is))]
pub fn condition_leaves(alloc: Global, node: &Node) -> Result<Option<Boxed<Node>>, NoMemory>
    ensures { IfOk result (λ o. option_map pure_node o ≡ left (pure_node node.now)) }
{
    match node {
        Node::Op(mark, Op::Word(word), operands) => match by_number(operands.as_slice()) {
            Operands::One(list) => match list {
                Node::Comp(body, gens) => leaves_fold(
                    alloc,
                    *mark,
                    *word,
                    body.get(),
                    gens.as_slice(),
                ),
                _ => Ok(None),
            },
            _ => Ok(None),
        },
        _ => Ok(None),
    }
}

/// The same of a fold over a comprehension.
fn leaves_fold(
    alloc: Global,
    mark: bool,
    fun: Fun,
    body: &Node,
    gens: &[Gen],
) -> Result<Option<Boxed<Node>>, NoMemory>
    ensures { IfOk result (λ o. option_map pure_node o ≡ left (fun1 mark fun (comp_ex (pure_node body.now) (pure_gens gens.now)))) }
{
    match at_last_condition(gens) {
        None => Ok(None),
        Some(parts) => {
            if can_leave(mark, fun, body, &parts) {
                Ok(Some(left_fold(alloc, mark, fun, body, &parts)?))
            } else {
                Ok(None)
            }
        }
    }
}

/// Whether the word folds, and the condition, the body and what stands behind the condition are refined.
fn can_leave(mark: bool, fun: Fun, body: &Node, parts: &Parted) -> bool
    ensures { result ≡ folds mark fun && (is_refined_ex (pure_parted parts.now).condition && (is_refined_ex (pure_node body.now)
        && are_refined (pure_parted parts.now).after)) }
{
    is_marked(mark, fun)
        && (is_refined(parts.condition) && (is_refined(body) && are_refined_gens(parts.after)))
}

/// `F([F([e | hs]) under c | gs])`
fn left_fold(
    alloc: Global,
    mark: bool,
    fun: Fun,
    body: &Node,
    parts: &Parted,
) -> Result<Boxed<Node>, NoMemory>
    ensures { IfOk result (λ n. pure_node n ≡ fun1 mark fun (comp_ex (under fun (pure_parted parts.now).condition
        (fun1 mark fun (comp_ex (pure_node body.now) (pure_parted parts.now).after))) (pure_parted parts.now).before)) }
{
    let behind = copy_gens(alloc, parts.after)?;
    let inner = comprehension(alloc, body.copy(alloc)?, behind)?;
    let fold = word(alloc, mark, fun, inner)?;
    let condition = parts.condition.copy(alloc)?;
    let item = under_condition(alloc, fun, condition, fold)?;
    let before = copy_gens(alloc, parts.before)?;
    let outer = comprehension(alloc, item, before)?;
    word(alloc, mark, fun, outer)
}

/// Whether the word folds lists, and the mark says whether it folds truth values.
fn is_marked(mark: bool, word: Fun) -> bool
    ensures { result ≡ folds mark word }
{
    match word {
        Fun::And | Fun::Or => mark,
        Fun::Sum | Fun::Product => !mark,
        _ => false,
    }
}

/// `c -> e` under `and`, `c /\ e` under `or`; with n, the number of e that is there everywhere, `toInt(c) * n` under `sum` and
/// `toInt(c) * (n - 1) + 1` under `product`.
fn under_condition(
    alloc: Global,
    word: Fun,
    condition: Boxed<Node>,
    fold: Boxed<Node>,
) -> Result<Boxed<Node>, NoMemory>
    ensures { IfOk result (λ n. pure_node n ≡ under word (pure_node condition) (pure_node fold)) }
{
    match word {
        Fun::And => binary(alloc, true, Op2::Implies, condition, fold),
        Fun::Or => binary(alloc, true, Op2::And, condition, fold),
        Fun::Sum => {
            let there = everywhere(alloc, fold.get())?;
            let one = chosen(alloc, condition)?;
            binary(alloc, false, Op2::Times, one, there)
        }
        _ => factor(alloc, condition, fold.get()),
    }
}

/// `toInt(c) * (n - 1) + 1`
fn factor(alloc: Global, condition: Boxed<Node>, fold: &Node) -> Result<Boxed<Node>, NoMemory>
    ensures { IfOk result (λ n. pure_node n ≡ under Fun.Product (pure_node condition) (pure_node fold.now)) }
{
    let there = everywhere(alloc, fold)?;
    let one = number(alloc, 1)?;
    let less = binary(alloc, false, Op2::Minus, there, one)?;
    let chosen = chosen(alloc, condition)?;
    let product = binary(alloc, false, Op2::Times, chosen, less)?;
    let one = number(alloc, 1)?;
    binary(alloc, false, Op2::Plus, product, one)
}
