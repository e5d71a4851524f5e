//! A condition that reads cells moves behind the generators after it, so that `min` and `max` find it last.
ghost use Rattle.std.specs.Prelude.{◌≡◌, ◌&&◌, ◌∷◌, false, option_map, map, IfOk};
ghost use Rattle.ess_semantics.specs.Refined.{is_refined as is_refined_ex, are_refined_gens as are_refined};
ghost use Rattle.ess_refine_laws.specs.ExtremeRules.{is_extreme as picks};
ghost use Rattle.ess_semantics.specs.Trees.{comp_ex, fun1};
ghost use Rattle.ess_core.specs.TreeViews.{cond_item};
ghost use Rattle.ess_core_nodes.specs.NodeViews.{pure_node, pure_gen, pure_gens};
ghost use Rattle.ess_rules_laws.specs.SpliceRules.{append_gens};
ghost use Rattle.ess_refine_laws.specs.MovingConditions.{condition_later as later, one_later as one_behind};
ghost use Rattle.ess_rules_conditions.specs.PartedViews.{pure_parted};

use crate::extremes::is_extreme;
use crate::parted::{Parted, at_last_condition};
use ess_core::Fun;
use ess_core_nodes::{Gen, Node, Op, copy_gens};
use ess_node_building::{comprehension, condition, word};
use ess_node_forms::{are_refined_gens, is_refined};
use ess_node_operands::{Operands, by_number};
use ess_rows::{Boxed, NoMemory, Row};
use ess_rules_everywhere::everywhere_dom;
use std::alloc::Global;

/// `min([e | gs, c, x : d, hs])` is `min([e | gs, x : d', c, hs])`, where c is the last condition that reads a cell, c, e and what
/// stands behind c are refined, and d' is d made to be there everywhere. So it is with another condition behind it, and with `max`.
/// `NoMemory` where there is no room for it.
#[tactic(auto, using(ess_core_nodes::proofs::NodeEquations::pure_seen_is))]
pub fn condition_later(alloc: Global, node: &Node) -> Result<Option<Boxed<Node>>, NoMemory>
    ensures { IfOk result (λ o. option_map pure_node o ≡ later (pure_node node.now)) }
{
    match node {
        Node::Op(false, Op::Word(word), operands) => match by_number(operands.as_slice()) {
            Operands::One(list) => match list {
                Node::Comp(body, gens) => later_of(alloc, *word, body.get(), gens.as_slice()),
                _ => Ok(None),
            },
            _ => Ok(None),
        },
        _ => Ok(None),
    }
}

/// The same of a comprehension.
fn later_of(
    alloc: Global,
    fun: Fun,
    body: &Node,
    gens: &[Gen],
) -> Result<Option<Boxed<Node>>, NoMemory>
    ensures { IfOk result (λ o. option_map pure_node o ≡ later (fun1 false fun (comp_ex (pure_node body.now) (pure_gens gens.now)))) }
{
    match at_last_condition(gens) {
        None => Ok(None),
        Some(parts) => {
            if can_move(fun, body, &parts) {
                moved(alloc, fun, body, &parts)
            } else {
                Ok(None)
            }
        }
    }
}

/// Whether the word picks the least or the greatest, and the condition, the body and what stands behind the condition are refined.
fn can_move(fun: Fun, body: &Node, parts: &Parted) -> bool
    ensures { result ≡ picks fun && (is_refined_ex (pure_parted parts.now).condition && (is_refined_ex (pure_node body.now)
        && are_refined (pure_parted parts.now).after)) }
{
    is_extreme(fun)
        && (is_refined(parts.condition) && (is_refined(body) && are_refined_gens(parts.after)))
}

/// The condition one place later, where it can move.
fn moved(
    alloc: Global,
    fun: Fun,
    body: &Node,
    parts: &Parted,
) -> Result<Option<Boxed<Node>>, NoMemory>
    ensures { IfOk result (λ o. option_map pure_node o ≡ option_map
        (λ hs. fun1 false fun (comp_ex (pure_node body.now) (append_gens (pure_parted parts.now).before hs)))
        (one_behind (pure_parted parts.now).condition (pure_parted parts.now).after)) }
{
    let before = copy_gens(alloc, parts.before)?;
    match one_later(alloc, before, parts.condition, parts.after)? {
        None => Ok(None),
        Some(gens) => {
            let list = comprehension(alloc, body.copy(alloc)?, gens)?;
            Ok(Some(word(alloc, false, fun, list)?))
        }
    }
}

/// Behind the generators before it: the item behind the condition, the condition, and what is left.
#[tactic(auto, using(ess_core_nodes::proofs::NodeEquations::pure_gen_over, ess_core_nodes::proofs::NodeEquations::pure_gen_from, ess_core_nodes::proofs::NodeEquations::pure_gen_if))]
fn one_later(
    alloc: Global,
    before: Row<Gen>,
    test: &Node,
    after: &[Gen],
) -> Result<Option<Row<Gen>>, NoMemory>
    ensures { IfOk result (λ o. option_map pure_gens o
        ≡ option_map (λ hs. append_gens (pure_gens before) hs) (one_behind (pure_node test.now) (pure_gens after.now))) }
{
    let Some((item, rest)) = after.split_first() else {
        return Ok(None);
    };
    let first = match item {
        Gen::Over(pat, dom) => {
            let dom = everywhere_dom(alloc, dom.get())?;
            let pat = pat.copy(alloc)?;
            Boxed::new(alloc, Gen::Over(pat, dom))?
        }
        Gen::If(other) => Boxed::new(alloc, Gen::If(other.get().copy(alloc)?))?,
        Gen::From(_, _) => return Ok(None),
    };
    let behind = behind_item(alloc, first, test, rest)?;
    Ok(Some(joined(before, behind)?))
}

/// An item, a condition, and what is left.
#[tactic(auto, using(ess_core_nodes::proofs::NodeEquations::pure_gen_if))]
fn behind_item(
    alloc: Global,
    item: Boxed<Gen>,
    test: &Node,
    rest: &[Gen],
) -> Result<Row<Gen>, NoMemory>
    ensures { IfOk result (λ gs. map pure_gen gs ≡ pure_gen item ∷ cond_item (pure_node test.now) ∷ map pure_gen rest.now) }
{
    let mut gens = Row::new(alloc);
    gens.push(item.into_inner())?;
    gens.push(condition(test.copy(alloc)?))?;
    let mut rest = copy_gens(alloc, rest)?;
    gens.append(&mut rest)?;
    Ok(gens)
}

/// Generators behind others.
#[tactic(auto, using(crate::proofs::GensBehind::gens_behind))]
fn joined(mut first: Row<Gen>, mut second: Row<Gen>) -> Result<Row<Gen>, NoMemory>
    ensures { IfOk result (λ gs. pure_gens gs ≡ append_gens (pure_gens first) (pure_gens second)) }
{
    first.append(&mut second)?;
    Ok(first)
}
