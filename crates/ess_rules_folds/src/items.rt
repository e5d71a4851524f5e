//! Folds over the items of a literal.
ghost use Rattle.std.specs.Prelude.{◌≡◌, IfOk, option_map, map};
ghost use Rattle.ess_core_nodes.specs.NodeViews.{pure_node, pure_nodes, pure_gens};
ghost use Rattle.ess_rules_laws.specs.SourceRules.{fold_items};
ghost use Rattle.ess_rules_folds.specs.Forms.{pure_fold};
ghost use Rattle.ess_rules_folds.specs.FoldParts.{item_fold, items_folded, items_made};

use crate::forms::{Fold, are_none, fold_over, written_items};
use crate::lists::is_marked;
use ess_core_nodes::{Node, Op};
use ess_node_building::{comprehension, literal, word};
use ess_rows::{Boxed, NoMemory, Row};
use ess_substitution::{substitute, substitute_gens};
use std::alloc::Global;

/// Of a fold over the items of a list or multiset literal, the fold of the folds for each item, with the item in the place of the
/// name. `NoMemory` where there is no room for it.
#[tactic(auto, using(crate::proofs::FoldForms::items_by_parts))]
pub fn fold_items(alloc: Global, node: &Node) -> Result<Option<Boxed<Node>>, NoMemory>
    ensures { IfOk result (λ o. option_map pure_node o ≡ fold_items (pure_node node.now)) }
{
    match fold_over(node) {
        Some(fold) => items_made(alloc, &fold),
        None => Ok(None),
    }
}

/// The same by the parts of the root.
fn items_made(alloc: Global, fold: &Fold<'_>) -> Result<Option<Boxed<Node>>, NoMemory>
    ensures { IfOk result (λ o. option_map pure_node o ≡ items_made (pure_fold fold.now)) }
{
    let Some(items) = written_items(fold.source) else {
        return Ok(None);
    };
    if are_none(fold.others) {
        items_folded(alloc, fold, items)
    } else {
        Ok(None)
    }
}

/// The same by the items of the literal.
#[tactic(auto, using(crate::proofs::FoldRows::items_one_by_one))]
fn items_folded(
    alloc: Global,
    fold: &Fold<'_>,
    items: &[Node],
) -> Result<Option<Boxed<Node>>, NoMemory>
    ensures { IfOk result (λ o. option_map pure_node o ≡ items_folded (pure_fold fold.now) (pure_nodes items.now)) }
{
    if !is_marked(fold.mark, fold.fun) {
        return Ok(None);
    }
    let folds = each_fold(alloc, fold, items)?;
    let list = literal(alloc, Op::Matrix, folds)?;
    Ok(Some(word(alloc, fold.mark, fold.fun, list)?))
}

/// The fold for each item.
fn each_fold(alloc: Global, fold: &Fold<'_>, items: &[Node]) -> Result<Row<Node>, NoMemory>
    ensures { IfOk result (λ ns. map pure_node ns
        ≡ map (item_fold fold.now.mark fold.now.fun fold.now.name.now (pure_node fold.now.body.now) (pure_gens fold.now.rest.now))
        (map pure_node items.now)) }
{
    let mut all = Row::with_capacity(alloc, items.len())?;
    for item in items {
        let made = item_fold(alloc, fold, item)?;
        all.push(made.into_inner())?;
    }
    Ok(all)
}

/// The fold for one item.
fn item_fold(alloc: Global, fold: &Fold<'_>, item: &Node) -> Result<Boxed<Node>, NoMemory>
    ensures { IfOk result (λ n. pure_node n
        ≡ item_fold fold.now.mark fold.now.fun fold.now.name.now (pure_node fold.now.body.now) (pure_gens fold.now.rest.now)
        (pure_node item.now)) }
{
    let body = substitute(alloc, fold.body, fold.name, item)?;
    let rest = substitute_gens(alloc, fold.rest, fold.name, item)?;
    let items = comprehension(alloc, body, rest)?;
    word(alloc, fold.mark, fold.fun, items)
}
