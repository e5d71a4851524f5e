//! Domains, views, sizes and values, entered by name.
ghost use Rattle.std.specs.Prelude.{◌≡◌, [], map, IfOk, OnOk};
ghost use Rattle.ess_semantics.specs.Trees.{cell_ex, no_exs};
ghost use Rattle.ess_core.specs.TreeViews.{pure_dom as pure_code_dom, pure_ex};
ghost use Rattle.ess_core_nodes.specs.NodeViews.{pure_node, pure_dom};
ghost use Rattle.conjure_model_laws.specs.ToldApart.{told, told_dom};
ghost use Rattle.conjure_model_laws.specs.Shown.{shown, shown_dom, shows_nothing, with_size, with_views};
ghost use Rattle.ess_model_shown.specs.Tables.{pure_shows, SameShows};
ghost use Rattle.ess_model_shows.specs.Entered.{domain_over, with_domain, with_number, with_values};

use crate::positions::{number_node, put_positions};
use ess_core::{Dom, Ex};
use ess_core_nodes::{Node, NodeDom, dom_of, node_of};
use ess_model_names::{told_apart_from, told_dom_from};
use ess_model_shown::{DomNames, NodeNames, Shows, shown, shown_dom};
use ess_node_remaking::cell_at;
use ess_rows::{Boxed, NoMemory, Row, Text};
use std::alloc::Global;

/// Nothing is declared. Two reserved names are kept for conditions. Nothing is allocated.
pub fn nothing_shown(alloc: Global) -> Shows
    ensures { pure_shows result ≡ shows_nothing }
{
    Shows {
        first: NodeNames::new(alloc),
        last: NodeNames::new(alloc),
        sizes: NodeNames::new(alloc),
        doms: DomNames::new(alloc),
        next: 2,
    }
}

/// Enters the domain of a given or find over tables, with its bound names told apart, and answers it. `NoMemory` where there is no
/// room for it, or the reserved names can't be counted; part of it may then be there.
#[tactic(auto, using(crate::proofs::EnteringLaws::domain_entered))]
pub fn enter_domain(
    alloc: Global,
    name: &Text,
    dom: &Dom,
    shows: &mut Shows,
) -> Result<Boxed<NodeDom>, NoMemory>
    ensures dom { IfOk result (λ d. pure_dom d ≡ domain_over (pure_code_dom dom.now) (pure_shows shows.old)) }
    ensures shows { OnOk result (SameShows (pure_shows shows.new)
        (with_domain name.now (pure_code_dom dom.now) (pure_shows shows.old))) }
{
    let mut next = shows.next;
    let over = domain_over(alloc, dom, shows, &mut next)?;
    let kept = over.get().copy(alloc)?;
    shows.doms.put(alloc, name, kept)?;
    shows.next = next;
    Ok(over)
}

/// A domain over tables, with its bound names told apart by the reserved names from `next` on, where the number behind them is left.
fn domain_over(
    alloc: Global,
    dom: &Dom,
    shows: &Shows,
    next: &mut u64,
) -> Result<Boxed<NodeDom>, NoMemory>
    ensures dom { IfOk result (λ d. pure_dom d
        ≡ shown_dom (pure_shows shows.now) (told_dom (pure_code_dom dom.now) [] next.old).0) }
    ensures next { OnOk result (next.new ≡ (told_dom (pure_code_dom dom.now) [] next.old).1) }
{
    let dom = dom_of(alloc, dom)?;
    let dom = told_dom_from(alloc, dom.get(), next)?;
    shown_dom(alloc, shows, dom.get())
}

/// Enters a name with its views, in their order. `NoMemory` where there is no room for them; one of them may then be there.
#[tactic(auto, using(crate::proofs::EnteringLaws::no_views))]
pub fn enter_views(
    alloc: Global,
    name: &Text,
    views: &[Node],
    shows: &mut Shows,
) -> Result<(), NoMemory>
    ensures { OnOk result (SameShows (pure_shows shows.new) (with_views name.now (map pure_node views.now) (pure_shows shows.old))) }
{
    if views.is_empty() {
        return Ok(());
    }
    let first = views[0].copy(alloc)?;
    let last = views[views.len() - 1].copy(alloc)?;
    shows.first.put(alloc, name, first)?;
    shows.last.put(alloc, name, last)?;
    Ok(())
}

/// Enters an unnamed type with its size over tables, whose bound names are told apart. `NoMemory` where there is no room for it, or the
/// reserved names can't be counted; part of it may then be there.
#[tactic(auto, using(crate::proofs::EnteringLaws::size_entered))]
pub fn enter_size(alloc: Global, name: &Text, size: &Ex, shows: &mut Shows) -> Result<(), NoMemory>
    ensures { OnOk result (SameShows (pure_shows shows.new) (with_size name.now (pure_ex size.now) (pure_shows shows.old))) }
{
    let mut next = shows.next;
    let size = size_over(alloc, size, shows, &mut next)?;
    shows.sizes.put(alloc, name, size)?;
    shows.next = next;
    Ok(())
}

/// An expression over tables, with its bound names told apart by the reserved names from `next` on, where the number behind them is
/// left.
fn size_over(
    alloc: Global,
    size: &Ex,
    shows: &Shows,
    next: &mut u64,
) -> Result<Boxed<Node>, NoMemory>
    ensures size { IfOk result (λ n. pure_node n ≡ shown (pure_shows shows.now) (told (pure_ex size.now) [] next.old).0) }
    ensures next { OnOk result (next.new ≡ (told (pure_ex size.now) [] next.old).1) }
{
    let size = node_of(alloc, size)?;
    let size = told_apart_from(alloc, size.get(), next)?;
    shown(alloc, shows, size.get())
}

/// Enters a type with what stands for the number of its values. `NoMemory` where there is no room for it; nothing is entered then.
#[tactic(auto, using(crate::proofs::EnteringLaws::number_entered))]
pub fn enter_number(
    alloc: Global,
    name: &Text,
    number: Boxed<Node>,
    shows: &mut Shows,
) -> Result<(), NoMemory>
    ensures { OnOk result (SameShows (pure_shows shows.new) (with_number name.now (pure_node number) (pure_shows shows.old))) }
{
    shows.sizes.put(alloc, name, number)
}

/// Enters an enumerated type with the positions of its values and their number. `NoMemory` where there is no room for them, or they
/// can't be counted; part of them may then be there.
#[tactic(auto, using(crate::proofs::EnteringLaws::values_entered))]
pub fn enter_values(
    alloc: Global,
    name: &Text,
    values: &[Text],
    shows: &mut Shows,
) -> Result<(), NoMemory>
    ensures { OnOk result (SameShows (pure_shows shows.new) (with_values name.now values.now (pure_shows shows.old))) }
{
    put_positions(alloc, values, &mut shows.first)?;
    put_positions(alloc, values, &mut shows.last)?;
    let size = number_node(alloc, values.len())?;
    shows.sizes.put(alloc, name, size)
}

/// A cell without indices: whether it is a truth value comes first. `NoMemory` where there is no room for it.
pub fn cell_node(alloc: Global, is_bool: bool, name: &Text) -> Result<Boxed<Node>, NoMemory>
    ensures { IfOk result (λ n. pure_node n ≡ cell_ex is_bool name.now no_exs) }
{
    cell_at(alloc, is_bool, name, Row::new(alloc))
}
