//! The items of literals as alternatives.
ghost use Rattle.std.specs.Prelude.{◌≡◌, [], IfOk, OnOk, map, reverse};
ghost use Rattle.ess_core_nodes.specs.NodeViews.{pure_node, pure_nodes, pure_gens};
ghost use Rattle.ess_rules_laws.specs.Listings.{each_item, each_first, none_of};
ghost use Rattle.ess_rules_forms.specs.PureAlternatives.{pure_alternative};
ghost use Rattle.ess_rules_listings.specs.ListedTerms.{item_alone, is_not, unless_apart};

use ess_core::{Op1, Op2};
use ess_core_nodes::{Gen, Node};
use ess_node_building::{binary, condition, unary};
use ess_rows::{Boxed, NoMemory, Row};
use ess_rules_forms::{Alternative, are_apart};
use std::alloc::Global;

/// Each item by itself.
#[tactic(auto, using(crate::proofs::ItemRows::items_alone))]
pub(crate) fn each_item(alloc: Global, items: &[Node]) -> Result<Row<Alternative>, NoMemory>
    ensures { IfOk result (λ l. map pure_alternative l ≡ each_item (pure_nodes items.now)) }
{
    Ok(items_alone(alloc, items)?)
}

/// The same one by one.
fn items_alone(alloc: Global, items: &[Node]) -> Result<Row<Alternative>, NoMemory>
    ensures { IfOk result (λ l. map pure_alternative l ≡ map item_alone (map pure_node items.now)) }
{
    let mut all = Row::with_capacity(alloc, items.len())?;
    for item in items {
        let item = item.copy(alloc)?;
        all.push(Alternative {
            gens: Row::new(alloc),
            item,
        })?;
    }
    Ok(all)
}

/// Each item where it is none of those before it.
#[tactic(auto, using(crate::proofs::ItemRows::first_behind))]
pub(crate) fn each_first(alloc: Global, items: &[Node]) -> Result<Row<Alternative>, NoMemory>
    ensures { IfOk result (λ l. map pure_alternative l ≡ each_first [] (pure_nodes items.now)) }
{
    let mut all = Row::with_capacity(alloc, items.len())?;
    for (place, item) in items.iter().enumerate() {
        let gens = none_of(alloc, &items[..place], item)?;
        let item = item.copy(alloc)?;
        all.push(Alternative { gens, item })?;
    }
    Ok(all)
}

/// That an item is none of those before it, the newest first. Of those that are apart from it the form tells that.
#[tactic(auto, using(crate::proofs::ItemRows::none_more))]
fn none_of(alloc: Global, before: &[Node], item: &Node) -> Result<Row<Gen>, NoMemory>
    ensures { IfOk result (λ gs. pure_gens gs ≡ none_of (reverse (map pure_node before.now)) (pure_node item.now)) }
{
    let mut gens = Row::new(alloc);
    for other in before {
        put_other(alloc, other, item, &mut gens)?;
    }
    Ok(gens)
}

/// The condition that an item isn't another comes before the others, where the form doesn't tell it.
fn put_other(alloc: Global, other: &Node, item: &Node, gens: &mut Row<Gen>) -> Result<(), NoMemory>
    ensures { OnOk result (pure_gens gens.new ≡ unless_apart (pure_node other.now) (pure_node item.now) (pure_gens gens.old)) }
{
    if are_apart(other, item) {
        Ok(())
    } else {
        let different = is_not(alloc, other, item)?;
        gens.insert(0, condition(different))
    }
}

/// That an item isn't another.
fn is_not(alloc: Global, other: &Node, item: &Node) -> Result<Boxed<Node>, NoMemory>
    ensures { IfOk result (λ n. pure_node n ≡ is_not (pure_node other.now) (pure_node item.now)) }
{
    let other = other.copy(alloc)?;
    let item = item.copy(alloc)?;
    let same = binary(alloc, true, Op2::Eq, other, item)?;
    unary(alloc, true, Op1::Not, same)
}
