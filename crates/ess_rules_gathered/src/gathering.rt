//! Several conditions that read cells, under `min` or `max`, become one behind all generators.
ghost use Rattle.std.specs.Prelude.{◌≡◌, ◌&&◌, IfOk, option_map, false};
ghost use Rattle.ess_semantics.specs.Refined.{is_refined as is_refined_ex, are_refined_gens as are_refined};
ghost use Rattle.ess_semantics.specs.Trees.{comp_ex, fun1};
ghost use Rattle.ess_core_nodes.specs.NodeViews.{pure_node, pure_gens};
ghost use Rattle.ess_refine_laws.specs.ExtremeRules.{is_extreme as picks};
ghost use Rattle.ess_gathered_laws.specs.GatheredConditions.{conditions_gathered as gathered, gathered_gens, gathered_under as under, cell_conditions};

use crate::parts::{conjunction, others};
use ess_core::Fun;
use ess_core_nodes::{Gen, Node, Op};
use ess_node_building::{comprehension, condition, word};
use ess_node_forms::{are_refined_gens, is_refined};
use ess_node_operands::{Operands, by_number};
use ess_rows::{Boxed, NoMemory, Row};
use ess_rules_everywhere::everywhere_gens;
use std::alloc::Global;

/// `min([e | gs, c, hs, d, ks])` is `min([e | gs', hs', ks', c /\ d])`, where c and d are all conditions that read cells, e, the
/// generators and the conditions are refined, and gs', hs', ks' have bounds that are there everywhere. So it is with more conditions,
/// and with `max`. Nothing where there are fewer than two. `NoMemory` where there is no room for it.
#[tactic(auto, using(ess_core_nodes::proofs::NodeEquations::pure_seen_is))]
pub fn conditions_gathered(alloc: Global, node: &Node) -> Result<Option<Boxed<Node>>, NoMemory>
    ensures { IfOk result (λ o. option_map pure_node o ≡ gathered (pure_node node.now)) }
{
    match node {
        Node::Op(false, Op::Word(word), operands) => match by_number(operands.as_slice()) {
            Operands::One(list) => match list {
                Node::Comp(body, gens) => { gathered_of(alloc, *word, body.get(), gens.as_slice()) }
                _ => Ok(None),
            },
            _ => Ok(None),
        },
        _ => Ok(None),
    }
}

/// The same of a comprehension.
fn gathered_of(
    alloc: Global,
    fun: Fun,
    body: &Node,
    gens: &[Gen],
) -> Result<Option<Boxed<Node>>, NoMemory>
    ensures { IfOk result (λ o. option_map pure_node o ≡ gathered (fun1 false fun (comp_ex (pure_node body.now) (pure_gens gens.now)))) }
{
    if can_gather(fun, body, gens) {
        gathered_under(alloc, fun, body, gens)
    } else {
        Ok(None)
    }
}

/// Whether the word picks the least or the greatest, and all that is put together is refined.
fn can_gather(fun: Fun, body: &Node, gens: &[Gen]) -> bool
    ensures { result ≡ (picks fun && (is_refined_ex (pure_node body.now) && are_refined (pure_gens gens.now))) }
{
    is_extreme(fun) && (is_refined(body) && are_refined_gens(gens))
}

/// Whether the word picks the least or the greatest.
fn is_extreme(word: Fun) -> bool
    ensures { result ≡ picks word }
{
    match word {
        Fun::Min => true,
        Fun::Max => true,
        _ => false,
    }
}

/// The list with the conditions that read cells behind it, where there are two or more.
fn gathered_under(
    alloc: Global,
    fun: Fun,
    body: &Node,
    gens: &[Gen],
) -> Result<Option<Boxed<Node>>, NoMemory>
    ensures { IfOk result (λ o. option_map pure_node o
        ≡ under fun (pure_node body.now) (pure_gens gens.now) (cell_conditions (pure_gens gens.now))) }
{
    let found = conjunction(alloc, gens)?;
    match found {
        Some((condition, true)) => Ok(Some(with_conjunction(alloc, fun, body, gens, condition)?)),
        Some((condition, false)) => {
            drop(condition);
            Ok(None)
        }
        None => Ok(None),
    }
}

/// The word over the generators and the other conditions, with this condition behind them.
fn with_conjunction(
    alloc: Global,
    fun: Fun,
    body: &Node,
    gens: &[Gen],
    last: Boxed<Node>,
) -> Result<Boxed<Node>, NoMemory>
    ensures { IfOk result (λ n. pure_node n
        ≡ fun1 false fun (comp_ex (pure_node body.now) (gathered_gens (pure_gens gens.now) (pure_node last)))) }
{
    let last = condition(last);
    let left = others(alloc, gens, Row::new(alloc))?;
    let mut made = everywhere_gens(alloc, left.as_slice())?;
    made.push(last)?;
    let body = body.copy(alloc)?;
    let list = comprehension(alloc, body, made)?;
    word(alloc, false, fun, list)
}
