//! Quantifiers over a condition alone, and over a set that is made of another container.
ghost use Rattle.std.specs.Prelude.{◌≡◌, true, IfOk, option_map};
ghost use Rattle.ess_semantics.specs.Trees.{comp_ex};
ghost use Rattle.ess_semantics.specs.Trees as pure;
ghost use Rattle.ess_core.specs.TreeViews.{pure_pat};
ghost use Rattle.ess_core_nodes.specs.NodeViews.{pure_node, pure_nodes, pure_gens};
ghost use Rattle.ess_rules_laws.specs.FoldRules.{fold_alone};
ghost use Rattle.ess_rules_laws.specs.LooseRules.{fold_loosely};
ghost use Rattle.ess_rules_folds.specs.FoldParts.{is_quantifier, under_condition, alone_body, loose_body};

use crate::forms::{are_none, first_comp, from_in, made_set_of, only_condition, word_in};
use ess_core::{Fun, Op2, Pat};
use ess_core_nodes::{Gen, Node, copy_gens};
use ess_node_building::{binary, comprehension, word};
use ess_rows::{Boxed, NoMemory, Row};
use std::alloc::Global;

/// Of `and([e | c])` it is `c -> e`, of `or([e | c])` it is `c /\ e`. `NoMemory` where there is no room for it.
#[tactic(auto, using(crate::proofs::FoldForms::alone_by_parts))]
pub fn fold_alone(alloc: Global, node: &Node) -> Result<Option<Boxed<Node>>, NoMemory>
    ensures { IfOk result (λ o. option_map pure_node o ≡ fold_alone (pure_node node.now)) }
{
    let Some((mark, fun, operands)) = word_in(node) else {
        return Ok(None);
    };
    if is_quantifier(mark, fun) {
        alone_body(alloc, fun, operands)
    } else {
        Ok(None)
    }
}

/// The same of the operands.
fn alone_body(alloc: Global, fun: Fun, operands: &[Node]) -> Result<Option<Boxed<Node>>, NoMemory>
    ensures { IfOk result (λ o. option_map pure_node o ≡ alone_body fun (pure_nodes operands.now)) }
{
    let Some((body, gens, others)) = first_comp(operands) else {
        return Ok(None);
    };
    let Some(condition) = only_condition(gens) else {
        return Ok(None);
    };
    if !are_none(others) {
        return Ok(None);
    }
    let condition = condition.copy(alloc)?;
    let body = body.copy(alloc)?;
    Ok(Some(binary(alloc, true, under_condition(fun), condition, body)?))
}

/// Of `and([e | p <- toSet(s), ..])` it is `and([e | p <- s, ..])`, and so it is with `or`. `NoMemory` where there is no room for it.
#[tactic(auto, using(crate::proofs::FoldForms::loose_by_parts))]
pub fn fold_loosely(alloc: Global, node: &Node) -> Result<Option<Boxed<Node>>, NoMemory>
    ensures { IfOk result (λ o. option_map pure_node o ≡ fold_loosely (pure_node node.now)) }
{
    let Some((mark, fun, operands)) = word_in(node) else {
        return Ok(None);
    };
    if is_quantifier(mark, fun) {
        loose_body(alloc, fun, operands)
    } else {
        Ok(None)
    }
}

/// The same of the operands.
fn loose_body(alloc: Global, fun: Fun, operands: &[Node]) -> Result<Option<Boxed<Node>>, NoMemory>
    ensures { IfOk result (λ o. option_map pure_node o ≡ loose_body fun (pure_nodes operands.now)) }
{
    let Some((body, gens, others)) = first_comp(operands) else {
        return Ok(None);
    };
    let Some((pat, source, rest)) = from_in(gens) else {
        return Ok(None);
    };
    let Some(members) = made_set_of(source) else {
        return Ok(None);
    };
    if !are_none(others) {
        return Ok(None);
    }
    let items = items_from(alloc, body, pat, members, rest)?;
    Ok(Some(word(alloc, true, fun, items)?))
}

/// A comprehension with a generator over a value before others.
#[tactic(auto, using(ess_core_nodes::proofs::NodeEquations::pure_gen_from))]
fn items_from(
    alloc: Global,
    body: &Node,
    pat: &Pat,
    source: &Node,
    rest: &[Gen],
) -> Result<Boxed<Node>, NoMemory>
    ensures { IfOk result (λ n. pure_node n
        ≡ comp_ex (pure_node body.now) (pure.from (pure_pat pat.now) (pure_node source.now) (pure_gens rest.now))) }
{
    let body = body.copy(alloc)?;
    let source = source.copy(alloc)?;
    let mut rest = copy_gens(alloc, rest)?;
    let mut gens = Row::new(alloc);
    let pat = pat.copy(alloc)?;
    gens.push(Gen::From(pat, source))?;
    gens.append(&mut rest)?;
    comprehension(alloc, body, gens)
}

/// Whether the word is `and` or `or`, of truth values.
fn is_quantifier(mark: bool, fun: Fun) -> bool
    ensures { result ≡ is_quantifier mark fun }
{
    match fun {
        Fun::And | Fun::Or => mark,
        _ => false,
    }
}

/// The operator between a condition and what is said under it.
fn under_condition(fun: Fun) -> Op2
    ensures { result ≡ under_condition fun }
{
    match fun {
        Fun::And => Op2::Implies,
        _ => Op2::And,
    }
}
