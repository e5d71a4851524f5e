//! Folds over nothing, over one item, over no generators, and over a term.
ghost use Rattle.std.specs.Prelude.{◌≡◌, IfOk, option_map};
ghost use Rattle.ess_semantics.specs.Trees.{name_ex, name_pat, comp_ex, no_gens};
ghost use Rattle.ess_semantics.specs.Trees as pure;
ghost use Rattle.ess_core_nodes.specs.NodeViews.{pure_node, pure_nodes};
ghost use Rattle.ess_rules_laws.specs.FoldRules.{fold_nothing, fold_one, fold_bare, fold_term, is_fold as is_folding, is_laid_open as is_open};
ghost use Rattle.ess_rules_laws.specs.SourceRules.{is_marked as is_marked_so};
ghost use Rattle.ess_rules_folds.specs.FoldParts.{unit_of, is_empty_list, one_item, bare_body};

use crate::forms::{are_no_gens, are_none, first_comp, list_items, only_in, word_in};
use ess_core::Fun;
use ess_core_nodes::{Node, Op};
use ess_node_building::{comprehension, from, name, number, truth, word};
use ess_rows::{Boxed, NoMemory, Row, Text};
use std::alloc::Global;

/// Of a fold over no items its unit. `NoMemory` where there is no room for it.
#[tactic(auto, using(crate::proofs::FoldForms::nothing_by_parts))]
pub fn fold_nothing(alloc: Global, node: &Node) -> Result<Option<Boxed<Node>>, NoMemory>
    ensures { IfOk result (λ o. option_map pure_node o ≡ fold_nothing (pure_node node.now)) }
{
    let Some((mark, fun, operands)) = word_in(node) else {
        return Ok(None);
    };
    if is_marked(mark, fun) && is_empty_list(operands) {
        Ok(Some(unit_of(alloc, fun)?))
    } else {
        Ok(None)
    }
}

/// Of a fold over one item the item. `NoMemory` where there is no room for it.
#[tactic(auto, using(crate::proofs::FoldForms::one_by_parts))]
pub fn fold_one(alloc: Global, node: &Node) -> Result<Option<Boxed<Node>>, NoMemory>
    ensures { IfOk result (λ o. option_map pure_node o ≡ fold_one (pure_node node.now)) }
{
    let Some((mark, fun, operands)) = word_in(node) else {
        return Ok(None);
    };
    if !is_marked(mark, fun) {
        return Ok(None);
    }
    match one_item(operands) {
        Some(item) => Ok(Some(item.copy(alloc)?)),
        None => Ok(None),
    }
}

/// Of a fold over a comprehension without generators its body. `NoMemory` where there is no room for it.
#[tactic(auto, using(crate::proofs::FoldForms::bare_by_parts))]
pub fn fold_bare(alloc: Global, node: &Node) -> Result<Option<Boxed<Node>>, NoMemory>
    ensures { IfOk result (λ o. option_map pure_node o ≡ fold_bare (pure_node node.now)) }
{
    let Some((mark, fun, operands)) = word_in(node) else {
        return Ok(None);
    };
    if !is_marked(mark, fun) {
        return Ok(None);
    }
    match bare_body(operands) {
        Some(item) => Ok(Some(item.copy(alloc)?)),
        None => Ok(None),
    }
}

/// Of a fold over a term, neither a list literal nor a comprehension, the same fold over a comprehension over the term, which binds
/// the name. `NoMemory` where there is no room for it.
#[tactic(auto, using(crate::proofs::FoldForms::term_by_parts))]
pub fn fold_term(alloc: Global, one: &Text, node: &Node) -> Result<Option<Boxed<Node>>, NoMemory>
    ensures { IfOk result (λ o. option_map pure_node o ≡ fold_term one.now (pure_node node.now)) }
{
    let Some((mark, fun, operands)) = word_in(node) else {
        return Ok(None);
    };
    let Some(list) = only_in(operands) else {
        return Ok(None);
    };
    if !is_fold(fun) || is_laid_open(list) {
        return Ok(None);
    }
    let items = items_of(alloc, one, list)?;
    Ok(Some(word(alloc, mark, fun, items)?))
}

/// The comprehension of the items of a term.
fn items_of(alloc: Global, one: &Text, list: &Node) -> Result<Boxed<Node>, NoMemory>
    ensures { IfOk result (λ n. pure_node n
        ≡ comp_ex (name_ex one.now) (pure.from (name_pat one.now) (pure_node list.now) no_gens)) }
{
    let list = list.copy(alloc)?;
    let mut gens = Row::new(alloc);
    gens.push(from(alloc, one, list)?)?;
    let item = name(alloc, one)?;
    comprehension(alloc, item, gens)
}

/// What a fold is over no items.
fn unit_of(alloc: Global, fun: Fun) -> Result<Boxed<Node>, NoMemory>
    ensures { IfOk result (λ n. pure_node n ≡ unit_of fun) }
{
    match fun {
        Fun::And => truth(alloc, true),
        Fun::Or => truth(alloc, false),
        Fun::Product => number(alloc, 1),
        _ => number(alloc, 0),
    }
}

/// Whether the only operand is a list literal without items.
fn is_empty_list(operands: &[Node]) -> bool
    ensures { result ≡ is_empty_list (pure_nodes operands.now) }
{
    let Some((first, others)) = operands.split_first() else {
        return false;
    };
    match list_items(first) {
        Some(items) => are_none(items) && are_none(others),
        None => false,
    }
}

/// The only item of a list literal that is the only operand.
fn one_item(operands: &[Node]) -> Option<&Node>
    ensures { option_map (λ a. pure_node a.now) result ≡ one_item (pure_nodes operands.now) }
{
    let Some((first, others)) = operands.split_first() else {
        return None;
    };
    let Some(items) = list_items(first) else {
        return None;
    };
    match only_in(items) {
        Some(item) => { if are_none(others) { Some(item) } else { None } }
        None => None,
    }
}

/// The body of a comprehension without generators that is the only operand.
fn bare_body(operands: &[Node]) -> Option<&Node>
    ensures { option_map (λ a. pure_node a.now) result ≡ bare_body (pure_nodes operands.now) }
{
    let Some((body, gens, others)) = first_comp(operands) else {
        return None;
    };
    if are_no_gens(gens) && are_none(others) {
        Some(body)
    } else {
        None
    }
}

/// Whether the word folds lists, and the mark says whether it folds truth values.
pub fn is_marked(mark: bool, fun: Fun) -> bool
    ensures { result ≡ is_marked_so mark fun }
{
    match fun {
        Fun::And | Fun::Or => mark,
        Fun::Sum | Fun::Product => !mark,
        _ => false,
    }
}

/// Whether the word folds lists.
fn is_fold(fun: Fun) -> bool
    ensures { result ≡ is_folding fun }
{
    match fun {
        Fun::And | Fun::Or | Fun::Sum | Fun::Product => true,
        _ => false,
    }
}

/// Whether the expression is a list literal or a comprehension.
#[tactic(auto, using(ess_core_nodes::proofs::NodeEquations::pure_seen_is))]
pub fn is_laid_open(node: &Node) -> bool
    ensures { result ≡ is_open (pure_node node.now) }
{
    match node {
        Node::Comp(_, _) => true,
        Node::Op(false, Op::Matrix, _) => true,
        _ => false,
    }
}
