//! The lookup of an item of a matrix that is written as a literal over an index domain.
ghost use Rattle.std.specs.Prelude.{◌≡◌, true, false, pos, map, option_map, IfOk};
ghost use Rattle.ess_semantics.specs.Trees.{at1, ex2, number_ex};
ghost use Rattle.ess_core_nodes.specs.NodeViews.{pure_node, pure_nodes, pure_dom};
ghost use Rattle.ess_views_laws.specs.PartitionViews.{is_one_of};
ghost use Rattle.ess_kind_rules_laws.specs.TermLookups.{count_below, item_at_place, items_at_places, domain_list_lookup};
ghost use Rattle.ess_rules_forms.specs.PureAlternatives.{pure_alternative};

use ess_core::{Fun, Op2};
use ess_core_nodes::{Node, NodeDom};
use ess_node_building::{binary, comprehension, condition, name, number, word};
use ess_rows::{Boxed, NoMemory, Row, Text};
use ess_rules_forms::{Alternative, some_over};
use ess_rules_kinds::pieces::gens_where;
use ess_rules_picked::indexed;
use std::alloc::Global;

/// `[e1, .., en; d][i]` is looked up by each item where i is the member of d at its place. Nothing for another tree; `NoMemory` where
/// there is no room for it, or a place is outside 64 bits.
#[tactic(auto, using(crate::proofs::PlacedItems::literal_by_index))]
pub(crate) fn domain_list_lookup(
    alloc: Global,
    one: &Text,
    node: &Node,
) -> Result<Option<Row<Alternative>>, NoMemory>
    ensures { IfOk result (λ o. option_map (map pure_alternative) o ≡ domain_list_lookup one.now (pure_node node.now)) }
{
    match indexed(node) {
        Some((list, index)) => literal_at(alloc, one, list, index),
        None => Ok(None),
    }
}

/// The same of a list and an index.
#[tactic(auto, using(ess_core_nodes::proofs::NodeEquations::pure_seen_is))]
fn literal_at(
    alloc: Global,
    one: &Text,
    list: &Node,
    index: &Node,
) -> Result<Option<Row<Alternative>>, NoMemory>
    ensures { IfOk result (λ o. option_map (map pure_alternative) o
        ≡ domain_list_lookup one.now (at1 false (pure_node list.now) (pure_node index.now))) }
{
    match list {
        Node::MatrixOn(items, dom) => {
            let all = items_at_places(alloc, one, dom.get(), index, items.as_slice())?;
            Ok(Some(all))
        }
        _ => Ok(None),
    }
}

/// Each item at its place, from 0 on.
#[tactic(auto, using(crate::proofs::PlacedItems::placed_behind))]
fn items_at_places(
    alloc: Global,
    one: &Text,
    dom: &NodeDom,
    index: &Node,
    items: &[Node],
) -> Result<Row<Alternative>, NoMemory>
    ensures { IfOk result (λ l. map pure_alternative l
        ≡ items_at_places one.now (pure_dom dom.now) (pure_node index.now) 0 (pure_nodes items.now)) }
{
    let mut all = Row::with_capacity(alloc, items.len())?;
    for (place, item) in items.iter().enumerate() {
        let placed = item_at_place(alloc, one, dom, index, place, item)?;
        all.push(placed)?;
    }
    Ok(all)
}

/// An item where the index is the member of the domain at a place.
#[tactic(auto, using(ess_core_nodes::proofs::NodeEquations::pure_gen_if))]
fn item_at_place(
    alloc: Global,
    one: &Text,
    dom: &NodeDom,
    index: &Node,
    place: usize,
    item: &Node,
) -> Result<Alternative, NoMemory>
    ensures { IfOk result (λ a. pure_alternative a
        ≡ item_at_place one.now (pure_dom dom.now) (pure_node index.now) place (pure_node item.now)) }
{
    let there = is_one_of(alloc, one, dom, index)?;
    let here = is_at_place(alloc, one, dom, index, place)?;
    let mut gens = Row::new(alloc);
    gens.push(condition(there))?;
    gens.push(condition(here))?;
    let item = item.copy(alloc)?;
    Ok(Alternative { gens, item })
}

/// That some member of a domain, called by the name, is this one.
fn is_one_of(
    alloc: Global,
    one: &Text,
    dom: &NodeDom,
    member: &Node,
) -> Result<Boxed<Node>, NoMemory>
    ensures { IfOk result (λ n. pure_node n ≡ is_one_of one.now (pure_dom dom.now) (pure_node member.now)) }
{
    let named = name(alloc, one)?;
    let test = binary(alloc, true, Op2::Eq, named, member.copy(alloc)?)?;
    some_over(alloc, one, dom, test)
}

/// That so many members of a domain as the place says are below a term.
fn is_at_place(
    alloc: Global,
    one: &Text,
    dom: &NodeDom,
    index: &Node,
    place: usize,
) -> Result<Boxed<Node>, NoMemory>
    ensures { IfOk result (λ n. pure_node n
        ≡ ex2 true Op2.Eq (count_below one.now (pure_dom dom.now) (pure_node index.now)) (number_ex (pos place))) }
{
    let Ok(place) = i64::try_from(place) else {
        return Err(NoMemory);
    };
    let below = count_below(alloc, one, dom, index)?;
    binary(alloc, true, Op2::Eq, below, number(alloc, place)?)
}

/// How many members of a domain, each of which is called by the name, are below a term.
fn count_below(
    alloc: Global,
    one: &Text,
    dom: &NodeDom,
    index: &Node,
) -> Result<Boxed<Node>, NoMemory>
    ensures { IfOk result (λ n. pure_node n ≡ count_below one.now (pure_dom dom.now) (pure_node index.now)) }
{
    let test = binary(alloc, true, Op2::Lt, name(alloc, one)?, index.copy(alloc)?)?;
    let gens = gens_where(alloc, one, dom.copy(alloc)?, test)?;
    let each = comprehension(alloc, number(alloc, 1)?, gens)?;
    word(alloc, false, Fun::Sum, each)
}
