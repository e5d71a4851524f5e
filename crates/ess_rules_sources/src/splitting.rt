//! A fold over the alternatives of its source.
ghost use Rattle.std.specs.Prelude.{◌≡◌, IfOk, option_map, map};
ghost use Rattle.ess_semantics.specs.ExpressionJudgements.{forgets_order as order_forgotten};
ghost use Rattle.ess_core_nodes.specs.NodeViews.{pure_node, pure_gens, pure_op};
ghost use Rattle.ess_rules_laws.specs.ListedSources.{source_alone, source_parts};
ghost use Rattle.ess_rules_folds.specs.Forms.{pure_fold};
ghost use Rattle.ess_rules_forms.specs.PureAlternatives.{pure_alternative};
ghost use Rattle.ess_rules_sources.specs.PureAlternatives.{put_fold, alone_put, parts_put};

use crate::alternatives::put_listed;
use ess_core::Fun;
use ess_core_nodes::{Node, Op};
use ess_node_building::{literal, word};
use ess_rows::{Boxed, NoMemory, Row};
use ess_rules_folds::forms::{Fold, are_none, fold_over};
use ess_rules_folds::is_marked;
use ess_rules_forms::Alternative;
use std::alloc::Global;

/// A word that forgets order over the only alternative of its source. `NoMemory` where there is no room for it.
#[tactic(auto, using(crate::proofs::SourceForms::alone_by_parts))]
pub fn source_alone(
    alloc: Global,
    offered: &Alternative,
    node: &Node,
) -> Result<Option<Boxed<Node>>, NoMemory>
    ensures { IfOk result (λ o. option_map pure_node o ≡ source_alone (pure_alternative offered.now) (pure_node node.now)) }
{
    match fold_over(node) {
        Some(fold) => alone_put(alloc, offered, &fold),
        None => Ok(None),
    }
}

/// The same by the parts of the root.
fn alone_put(
    alloc: Global,
    offered: &Alternative,
    fold: &Fold<'_>,
) -> Result<Option<Boxed<Node>>, NoMemory>
    ensures { IfOk result (λ o. option_map pure_node o ≡ alone_put (pure_alternative offered.now) (pure_fold fold.now)) }
{
    if !are_none(fold.others) || !forgets_order(fold.fun) {
        return Ok(None);
    }
    Ok(Some(put_fold(alloc, fold, offered)?))
}

/// A fold over the alternatives of its source: the fold of the folds over each. `NoMemory` where there is no room for it.
#[tactic(auto, using(crate::proofs::SourceForms::parts_by_parts))]
pub fn source_parts(
    alloc: Global,
    offered: &[Alternative],
    node: &Node,
) -> Result<Option<Boxed<Node>>, NoMemory>
    ensures { IfOk result (λ o. option_map pure_node o ≡ source_parts (map pure_alternative offered.now) (pure_node node.now)) }
{
    match fold_over(node) {
        Some(fold) => parts_put(alloc, offered, &fold),
        None => Ok(None),
    }
}

/// The same by the parts of the root.
#[tactic(auto, using(crate::proofs::SourceForms::put_one_by_one))]
fn parts_put(
    alloc: Global,
    offered: &[Alternative],
    fold: &Fold<'_>,
) -> Result<Option<Boxed<Node>>, NoMemory>
    ensures { IfOk result (λ o. option_map pure_node o ≡ parts_put (map pure_alternative offered.now) (pure_fold fold.now)) }
{
    if !are_none(fold.others) || !is_marked(fold.mark, fold.fun) {
        return Ok(None);
    }
    let folds = each_put(alloc, fold, offered)?;
    let list = literal(alloc, Op::Matrix, folds)?;
    Ok(Some(word(alloc, fold.mark, fold.fun, list)?))
}

/// The fold over each alternative.
fn each_put(alloc: Global, fold: &Fold<'_>, offered: &[Alternative]) -> Result<Row<Node>, NoMemory>
    ensures { IfOk result (λ ns. map pure_node ns
        ≡ map (put_fold fold.now.mark fold.now.fun fold.now.name.now (pure_node fold.now.body.now) (pure_gens fold.now.rest.now))
        (map pure_alternative offered.now)) }
{
    let mut all = Row::with_capacity(alloc, offered.len())?;
    for one in offered {
        let put = put_fold(alloc, fold, one)?;
        all.push(put.into_inner())?;
    }
    Ok(all)
}

/// The fold over one alternative.
fn put_fold(alloc: Global, fold: &Fold<'_>, offered: &Alternative) -> Result<Boxed<Node>, NoMemory>
    ensures { IfOk result (λ n. pure_node n
        ≡ put_fold fold.now.mark fold.now.fun fold.now.name.now (pure_node fold.now.body.now) (pure_gens fold.now.rest.now)
        (pure_alternative offered.now)) }
{
    let items = put_listed(alloc, fold, offered)?;
    word(alloc, fold.mark, fold.fun, items)
}

/// Whether order doesn't count in the operand of the word.
fn forgets_order(fun: Fun) -> bool
    ensures { result ≡ order_forgotten (pure_op (Op.Word fun)) }
{
    match fun {
        Fun::Sum | Fun::Product | Fun::And | Fun::Or => true,
        Fun::Min | Fun::Max | Fun::AllDiff | Fun::ToSet | Fun::ToMSet => true,
        _ => false,
    }
}
