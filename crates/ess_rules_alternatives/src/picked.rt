//! What picks the one item of alternatives.
ghost use Rattle.std.specs.Prelude.{◌≡◌, map, IfOk};
ghost use Rattle.ess_core_nodes.specs.NodeViews.{pure_node};
ghost use Rattle.ess_rules_laws.specs.ListedSources.{laid_out as comprehended};
ghost use Rattle.ess_rules_laws.specs.AlternativeLookups.{fold_word as word_of, picking_each as picks_each};
ghost use Rattle.ess_rules_forms.specs.PureAlternatives.{pure_alternative};
ghost use Rattle.ess_rules_alternatives.specs.Cases.{picked_from as picks_from};

use ess_core::Fun;
use ess_core_nodes::{Node, Op, copy_gens};
use ess_node_building::{comprehension, literal, word};
use ess_rows::{Boxed, NoMemory, Row, Text};
use ess_rules_forms::Alternative;
use ess_rules_lookups::picking;
use std::alloc::Global;

/// What picks the one item of the alternatives, which gets a name: of truth values `or([or([e | x <- [a | ks]]), ..])`, of numbers the
/// same with `sum`. `NoMemory` where there is no room for it.
#[tactic(auto, using(crate::proofs::EachRows::picked_one_by_one))]
pub fn picking_each(
    alloc: Global,
    mark: bool,
    bound: &Text,
    offered: &[Alternative],
    body: &Node,
) -> Result<Boxed<Node>, NoMemory>
    ensures { IfOk result (λ n. pure_node n ≡ picks_each mark bound.now (map pure_alternative offered.now) (pure_node body.now)) }
{
    let parts = each_picked(alloc, mark, bound, offered, body)?;
    let list = literal(alloc, Op::Matrix, parts)?;
    word(alloc, mark, fold_word(mark), list)
}

/// The word that folds the parts.
fn fold_word(mark: bool) -> Fun
    ensures { result ≡ word_of mark }
{
    if mark { Fun::Or } else { Fun::Sum }
}

/// What picks the item of each.
fn each_picked(
    alloc: Global,
    mark: bool,
    bound: &Text,
    offered: &[Alternative],
    body: &Node,
) -> Result<Row<Node>, NoMemory>
    ensures { IfOk result (λ ns. map pure_node ns
        ≡ map (picks_from mark bound.now (pure_node body.now)) (map pure_alternative offered.now)) }
{
    let mut all = Row::with_capacity(alloc, offered.len())?;
    for one in offered {
        let part = picked_from(alloc, mark, bound, one, body)?;
        all.push(part.into_inner())?;
    }
    Ok(all)
}

/// What picks the item of one.
fn picked_from(
    alloc: Global,
    mark: bool,
    bound: &Text,
    offered: &Alternative,
    body: &Node,
) -> Result<Boxed<Node>, NoMemory>
    ensures { IfOk result (λ n. pure_node n ≡ picks_from mark bound.now (pure_node body.now) (pure_alternative offered.now)) }
{
    let list = laid_out(alloc, offered)?;
    let body = body.copy(alloc)?;
    picking(alloc, mark, bound, list, body)
}

/// The comprehension of an alternative.
pub(crate) fn laid_out(alloc: Global, offered: &Alternative) -> Result<Boxed<Node>, NoMemory>
    ensures { IfOk result (λ n. pure_node n ≡ comprehended (pure_alternative offered.now)) }
{
    let item = offered.item.get().copy(alloc)?;
    let gens = copy_gens(alloc, offered.gens.as_slice())?;
    comprehension(alloc, item, gens)
}
