//! The least or the greatest over several alternatives: each has its own, or a number past all items where it has none.
ghost use Rattle.std.specs.Prelude.{◌≡◌, false, IfOk, option_map, map};
ghost use Rattle.ess_semantics.specs.Trees.{fun1};
ghost use Rattle.ess_semantics.specs.Trees as pure;
ghost use Rattle.ess_core_nodes.specs.NodeViews.{pure_node};
ghost use Rattle.ess_rules_laws.specs.ListedSources.{laid_out};
ghost use Rattle.ess_refine_laws.specs.Everywhere.{extreme, chosen};
ghost use Rattle.ess_refine_laws.specs.ExtremeRules.{is_extreme as picks_extreme};
ghost use Rattle.ess_refine_laws.specs.ExtremeAlternatives.{has_items, extreme_or, past_all, each_size, extreme_alternatives};
ghost use Rattle.ess_rules_forms.specs.PureAlternatives.{pure_alternative};
ghost use Rattle.ess_rules_sources.specs.PureAlternatives.{item_size};

use crate::alternatives::laid_out;
use ess_core::{Fun, Op1, Op2};
use ess_core_nodes::{Node, Op, copy_gens};
use ess_node_building::{binary, comprehension, condition, literal, truth, unary, word};
use ess_rows::{Boxed, NoMemory, Row};
use ess_rules_forms::Alternative;
use std::alloc::Global;

/// The least or the greatest of the items of these alternatives. `NoMemory` where there is no room for it.
#[tactic(auto, using(crate::proofs::ExtremeRows::extremes_one_by_one))]
pub fn extreme_alternatives(
    alloc: Global,
    fun: Fun,
    offered: &[Alternative],
) -> Result<Option<Boxed<Node>>, NoMemory>
    ensures { IfOk result (λ o. (t : pure.Ex) → option_map pure_node o
        ≡ extreme_alternatives (map pure_alternative offered.now) (fun1 false fun t)) }
{
    if !is_extreme(fun) {
        return Ok(None);
    }
    let past = past_all(alloc, fun, offered)?;
    let numbers = each_extreme(alloc, fun, past.get(), offered)?;
    let list = literal(alloc, Op::Matrix, numbers)?;
    Ok(Some(word(alloc, false, fun, list)?))
}

/// The number of each alternative.
fn each_extreme(
    alloc: Global,
    fun: Fun,
    past: &Node,
    offered: &[Alternative],
) -> Result<Row<Node>, NoMemory>
    ensures { IfOk result (λ ns. map pure_node ns ≡ map (extreme_or fun (pure_node past.now)) (map pure_alternative offered.now)) }
{
    let mut all = Row::with_capacity(alloc, offered.len())?;
    for one in offered {
        let number = extreme_or(alloc, fun, past, one)?;
        all.push(number.into_inner())?;
    }
    Ok(all)
}

/// The least or the greatest item of an alternative, or the number where there is none.
fn extreme_or(
    alloc: Global,
    fun: Fun,
    past: &Node,
    offered: &Alternative,
) -> Result<Boxed<Node>, NoMemory>
    ensures { IfOk result (λ n. pure_node n ≡ extreme_or fun (pure_node past.now) (pure_alternative offered.now)) }
{
    let least = extreme(alloc, fun, offered)?;
    let none = unary(alloc, true, Op1::Not, has_items(alloc, offered)?)?;
    let chosen = word(alloc, false, Fun::ToInt, none)?;
    let past = past.copy(alloc)?;
    let instead = binary(alloc, false, Op2::Times, chosen, past)?;
    binary(alloc, false, Op2::Plus, least, instead)
}

/// The least or the greatest item of an alternative, or 0 where there is none.
#[tactic(auto, using(ess_core_nodes::proofs::NodeEquations::pure_gen_if))]
fn extreme(alloc: Global, fun: Fun, offered: &Alternative) -> Result<Boxed<Node>, NoMemory>
    ensures { IfOk result (λ n. pure_node n ≡ extreme fun (laid_out (pure_alternative offered.now))) }
{
    let picked = word(alloc, false, fun, laid_out(alloc, offered)?)?;
    let mut gens = Row::new(alloc);
    gens.push(condition(has_items(alloc, offered)?))?;
    word(alloc, false, Fun::Sum, comprehension(alloc, picked, gens)?)
}

/// Whether there is an item.
fn has_items(alloc: Global, offered: &Alternative) -> Result<Boxed<Node>, NoMemory>
    ensures { IfOk result (λ n. pure_node n ≡ has_items (pure_alternative offered.now)) }
{
    let gens = copy_gens(alloc, offered.gens.as_slice())?;
    let item = truth(alloc, true)?;
    word(alloc, true, Fun::Or, comprehension(alloc, item, gens)?)
}

/// A number past all items.
#[tactic(auto, using(crate::proofs::ExtremeRows::sizes_one_by_one))]
fn past_all(alloc: Global, fun: Fun, offered: &[Alternative]) -> Result<Boxed<Node>, NoMemory>
    ensures { IfOk result (λ n. pure_node n ≡ past_all fun (map pure_alternative offered.now)) }
{
    let sizes = each_size(alloc, offered)?;
    let list = literal(alloc, Op::Matrix, sizes)?;
    let sum = word(alloc, false, Fun::Sum, list)?;
    match fun {
        Fun::Max => unary(alloc, false, Op1::Minus, sum),
        _ => Ok(sum),
    }
}

/// The sum of the sizes of the items of each alternative.
fn each_size(alloc: Global, offered: &[Alternative]) -> Result<Row<Node>, NoMemory>
    ensures { IfOk result (λ ns. map pure_node ns ≡ map item_size (map pure_alternative offered.now)) }
{
    let mut all = Row::with_capacity(alloc, offered.len())?;
    for one in offered {
        let size = item_size(alloc, one)?;
        all.push(size.into_inner())?;
    }
    Ok(all)
}

/// The sum of the sizes of the items of one.
fn item_size(alloc: Global, offered: &Alternative) -> Result<Boxed<Node>, NoMemory>
    ensures { IfOk result (λ n. pure_node n ≡ item_size (pure_alternative offered.now)) }
{
    let item = offered.item.get().copy(alloc)?;
    let size = unary(alloc, false, Op1::Bar, item)?;
    let gens = copy_gens(alloc, offered.gens.as_slice())?;
    word(alloc, false, Fun::Sum, comprehension(alloc, size, gens)?)
}

/// Whether the word picks the least or the greatest.
fn is_extreme(fun: Fun) -> bool
    ensures { result ≡ picks_extreme fun }
{
    match fun {
        Fun::Min | Fun::Max => true,
        _ => false,
    }
}
