//! Matrices that aren't numbered from 1 among what is picked: a list of the same items takes the place of each.
ghost use Rattle.std.specs.Prelude.{◌≡◌, map, option_map, Some, IfOk};
ghost use Rattle.std.specs.Option.{option_copied};
ghost use Rattle.ess_semantics.specs.Trees.{matrix_ex};
ghost use Rattle.ess_semantics.specs.Types.{type_of_dom as domain_type};
ghost use Rattle.ess_core.specs.TypeViews.{pure_ty};
ghost use Rattle.ess_core_nodes.specs.NodeViews.{pure_node, pure_nodes, pure_dom};
ghost use Rattle.ess_guard_laws.specs.IndexDomains.{first_index as index_before, plain_axis as the_plain_axis};
ghost use Rattle.ess_ordered_laws.specs.IndexedSources.{items_at as at_indices};
ghost use Rattle.ess_numbered_laws.specs.ListedPicks.{shifted_axis as axis_shifted, literal_as_list as literal_listed, view_as_list as view_listed, with_lists as lists_within, each_with_lists as each_listed};
ghost use Rattle.ess_rules_numbered.specs.ListedForms.{as_list as listed_itself, within_items as items_listed};

use crate::behind::{item_by_number, item_in};
use ess_core::Ty;
use ess_core_nodes::{Node, NodeDom, Op, copy_nodes};
use ess_guard_forms::plain_axis;
use ess_node_building::{comprehension, literal, over};
use ess_node_types::type_of_dom;
use ess_rows::{Boxed, NoMemory, Row, Text};
use ess_rules_ordered::told::{Told, first_index};
use ess_rules_ordered::{is_from_one, item_at, item_type};
use std::alloc::Global;

/// The term with a list in place of each matrix that isn't numbered from 1, where as many indices reach it. The name is for indices.
/// `NoMemory` where there is no room for it.
#[cycle(lists)]
#[tactic(auto, using(crate::proofs::ListedForms::lists_by_item, crate::proofs::ListedForms::lists_at_none, crate::proofs::ListedForms::lists_at_more, crate::proofs::ListedForms::lighter_list))]
pub(crate) fn with_lists(
    alloc: Global,
    one: &Text,
    depth: u64,
    term: &Node,
) -> Result<Boxed<Node>, NoMemory>
    ensures { IfOk result (λ n. pure_node n ≡ lists_within one.now depth (pure_node term.now)) }
{
    match item_in(term) {
        Some((false, (list, at))) => match depth.checked_add(1) {
            Some(deeper) => {
                let list = with_lists(alloc, one, deeper, list)?;
                item_by_number(alloc, false, list, at)
            }
            None => Err(NoMemory),
        },
        _ => {
            if depth == 0 {
                as_list(alloc, one, term)
            } else {
                within_items(alloc, one, depth - 1, term)
            }
        }
    }
}

/// The same of the items of a literal.
#[cycle(lists)]
#[tactic(auto, using(ess_core_nodes::proofs::NodeEquations::pure_seen_is))]
fn within_items(alloc: Global, one: &Text, depth: u64, term: &Node) -> Result<Boxed<Node>, NoMemory>
    ensures { IfOk result (λ n. pure_node n ≡ items_listed one.now depth (pure_node term.now)) }
{
    match term {
        Node::Op(false, Op::Matrix, items) => {
            let items = each_with_lists(alloc, one, depth, items.as_slice())?;
            literal(alloc, Op::Matrix, items)
        }
        Node::MatrixOn(items, axis) => {
            let items = each_with_lists(alloc, one, depth, items.as_slice())?;
            let axis = axis.get().copy(alloc)?;
            Boxed::new(alloc, Node::MatrixOn(items, axis))
        }
        _ => term.copy(alloc),
    }
}

/// The same of several terms.
#[cycle(lists)]
#[tactic(auto, using(crate::proofs::ListedForms::each_by_one))]
fn each_with_lists(
    alloc: Global,
    one: &Text,
    depth: u64,
    terms: &[Node],
) -> Result<Row<Node>, NoMemory>
    ensures { IfOk result (λ ns. pure_nodes ns ≡ each_listed one.now depth (pure_nodes terms.now)) }
{
    let all = lists_of_all(alloc, one, depth, terms)?;
    Ok(all)
}

/// The same, one by one.
#[cycle(lists)]
#[tactic(auto, using(crate::proofs::ListedForms::lighter_of_row))]
fn lists_of_all(
    alloc: Global,
    one: &Text,
    depth: u64,
    terms: &[Node],
) -> Result<Row<Node>, NoMemory>
    ensures { IfOk result (λ ns. map pure_node ns ≡ map (lists_within one.now depth) (map pure_node terms.now)) }
{
    let mut all = Row::with_capacity(alloc, terms.len())?;
    for term in terms {
        let list = with_lists(alloc, one, depth, term)?;
        all.push(list.into_inner())?;
    }
    Ok(all)
}

/// The matrix as a list, where it is a literal over a domain or a view, and isn't numbered from 1.
#[tactic(auto, using(ess_core_nodes::proofs::NodeEquations::pure_seen_is))]
fn as_list(alloc: Global, one: &Text, term: &Node) -> Result<Boxed<Node>, NoMemory>
    ensures { IfOk result (λ n. pure_node n ≡ listed_itself one.now (pure_node term.now)) }
{
    match term {
        Node::MatrixOn(items, axis) => literal_as_list(alloc, items.as_slice(), axis.get()),
        Node::Seen(seen) => view_as_list(alloc, one, term, seen.get().dom.get()),
        _ => term.copy(alloc),
    }
}

/// The items of a literal over an index domain: a list, where there are any, and it isn't numbered from 1.
fn literal_as_list(alloc: Global, items: &[Node], axis: &NodeDom) -> Result<Boxed<Node>, NoMemory>
    ensures { IfOk result (λ n. pure_node n ≡ literal_listed (pure_nodes items.now) (pure_dom axis.now)) }
{
    let copied = copy_nodes(alloc, items)?;
    match items.split_first() {
        Some(_) => match shifted_axis(Some(axis)) {
            Some(_) => literal(alloc, Op::Matrix, copied),
            None => literal_over(alloc, copied, axis),
        },
        None => literal_over(alloc, copied, axis),
    }
}

/// Items over an index domain.
fn literal_over(alloc: Global, items: Row<Node>, axis: &NodeDom) -> Result<Boxed<Node>, NoMemory>
    ensures { IfOk result (λ n. pure_node n ≡ matrix_ex (pure_nodes items) (pure_dom axis.now)) }
{
    let axis = axis.copy(alloc)?;
    Boxed::new(alloc, Node::MatrixOn(items, axis))
}

/// A view with values in a domain by its items, where it isn't numbered from 1.
#[tactic(auto, using(crate::proofs::ListedForms::view_by_type))]
fn view_as_list(
    alloc: Global,
    one: &Text,
    view: &Node,
    dom: &NodeDom,
) -> Result<Boxed<Node>, NoMemory>
    ensures { IfOk result (λ n. pure_node n ≡ view_listed one.now (pure_node view.now) (domain_type (pure_dom dom.now))
        (axis_shifted (the_plain_axis (index_before (Some (pure_dom dom.now)))))) }
{
    let Some(axis) = shifted_axis(plain_axis(first_index(Some(Told::Whole(dom))))) else {
        return view.copy(alloc);
    };
    let ty = type_of_dom(alloc, dom)?;
    match item_type(Some(ty.get())) {
        Some(item) => items_at(alloc, one, axis, view, item),
        None => view.copy(alloc),
    }
}

/// The index domain, where it is one of numbers other than those from 1.
fn shifted_axis(axis: Option<&NodeDom>) -> Option<&NodeDom>
    ensures { option_map pure_dom (option_copied result) ≡ axis_shifted (option_map pure_dom (option_copied axis.entry)) }
{
    let Some(dom) = axis else {
        return None;
    };
    match dom {
        NodeDom::Int(_, _) => { if is_from_one(dom) { None } else { Some(dom) } }
        _ => None,
    }
}

/// The items of a matrix, which are of this type, at its indices.
fn items_at(
    alloc: Global,
    one: &Text,
    axis: &NodeDom,
    matrix: &Node,
    ty: &Ty,
) -> Result<Boxed<Node>, NoMemory>
    ensures { IfOk result (λ n. pure_node n ≡ at_indices one.now (pure_dom axis.now) (pure_node matrix.now) (pure_ty ty.now)) }
{
    let axis = axis.copy(alloc)?;
    let mut gens = Row::new(alloc);
    gens.push(over(alloc, one, axis)?)?;
    let item = item_at(alloc, ty, matrix, one)?;
    comprehension(alloc, item, gens)
}
