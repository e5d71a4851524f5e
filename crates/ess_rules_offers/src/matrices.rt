//! Views of matrices: their items in order, and the item at an index.
ghost use Rattle.std.specs.Prelude.{◌≡◌, false, option_map, IfOk};
ghost use Rattle.std.specs.Option.{option_copied};
ghost use Rattle.ess_semantics.specs.Trees.{at1, name_ex};
ghost use Rattle.ess_core_nodes.specs.NodeViews.{pure_node, pure_dom};
ghost use Rattle.ess_views_laws.specs.MatrixViews.{item_view};
ghost use Rattle.ess_kind_rules_laws.specs.ViewListings.{matrix_listing};
ghost use Rattle.ess_kind_rules_laws.specs.TermLookups.{view_item_lookup};
ghost use Rattle.ess_rules_forms.specs.PureAlternatives.{pure_alternative};
ghost use Rattle.ess_rules_kinds.specs.ViewParts.{nested_view};
ghost use Rattle.ess_rules_kinds.specs.CodeParts.{pure_nested};
ghost use Rattle.ess_rules_offers.specs.Axes.{first_axis, listed_over, item_where};

use ess_core::{Op2, ReprKind};
use ess_core_nodes::{Node, NodeDom, Op, Step};
use ess_node_building::{binary, comprehension, literal, name, two};
use ess_rows::{Boxed, NoMemory, Row, Text};
use ess_rules_forms::Alternative;
use ess_rules_items::item_view;
use ess_rules_kinds::pieces::{gens_over, gens_where};
use ess_rules_kinds::{Nested, nested_parts};
use ess_rules_picked::indexed;
use std::alloc::Global;

/// The items of a view of a matrix, in order: the name over the first index domain, and the view behind it. Nothing for another tree;
/// `NoMemory` where there is no room for it.
#[tactic(auto, using(crate::proofs::AxisForms::listed_by_axis))]
pub fn matrix_listing(
    alloc: Global,
    one: &Text,
    view: &Node,
) -> Result<Option<Alternative>, NoMemory>
    ensures { IfOk result (λ o. option_map pure_alternative o ≡ matrix_listing one.now (pure_node view.now)) }
{
    match first_axis(view) {
        Some(axis) => listed_over(alloc, one, axis, view),
        None => Ok(None),
    }
}

/// The first index domain of a view of a matrix.
#[tactic(auto, using(crate::proofs::AxisForms::axis_by_parts))]
fn first_axis(view: &Node) -> Option<&NodeDom>
    ensures { option_map pure_dom (option_copied result) ≡ first_axis (pure_node view.now) }
{
    match nested_parts(view) {
        Some(parts) => axis_in(&parts),
        None => None,
    }
}

/// The same of the parts of a view.
fn axis_in<'a>(parts: &Nested<'a>) -> Option<&'a NodeDom>
    ensures { option_map pure_dom (option_copied result) ≡ first_axis (nested_view (pure_nested parts.now)) }
{
    match parts.kind {
        ReprKind::Matrix => match parts.dom {
            NodeDom::Matrix(axes, _) => match axes.as_slice().split_first() {
                Some((axis, _)) => Some(axis),
                None => None,
            },
            _ => None,
        },
        _ => None,
    }
}

/// The view at a name over an index domain.
fn listed_over(
    alloc: Global,
    one: &Text,
    axis: &NodeDom,
    view: &Node,
) -> Result<Option<Alternative>, NoMemory>
    ensures { IfOk result (λ o. option_map pure_alternative o ≡ listed_over one.now (pure_dom axis.now) (pure_node view.now)) }
{
    match item_at(alloc, one, view)? {
        Some(item) => {
            let gens = gens_over(alloc, one, axis.copy(alloc)?)?;
            Ok(Some(Alternative { gens, item }))
        }
        None => Ok(None),
    }
}

/// The view at a name.
fn item_at(alloc: Global, one: &Text, view: &Node) -> Result<Option<Boxed<Node>>, NoMemory>
    ensures { IfOk result (λ o. option_map pure_node o ≡ item_view (at1 false (pure_node view.now) (name_ex one.now))) }
{
    let index = name(alloc, one)?;
    let matrix = view.copy(alloc)?;
    let operands = two(alloc, matrix, index)?;
    let mut steps = Row::new(alloc);
    steps.push(Step::Value)?;
    let item = literal(alloc, Op::Index(steps), operands)?;
    item_view(alloc, item.get())
}

/// `v[a]` of a view of a matrix: the view at the name, where that runs over the first index domain and is a. Nothing for another tree.
#[tactic(auto, using(crate::proofs::AxisForms::item_by_index))]
pub(crate) fn view_item_lookup(
    alloc: Global,
    one: &Text,
    node: &Node,
) -> Result<Option<Boxed<Node>>, NoMemory>
    ensures { IfOk result (λ o. option_map pure_node o ≡ view_item_lookup one.now (pure_node node.now)) }
{
    match indexed(node) {
        Some((view, index)) => item_looked_up(alloc, one, view, index),
        None => Ok(None),
    }
}

/// The same of a view and an index.
#[tactic(auto, using(crate::proofs::AxisForms::item_by_axis))]
fn item_looked_up(
    alloc: Global,
    one: &Text,
    view: &Node,
    index: &Node,
) -> Result<Option<Boxed<Node>>, NoMemory>
    ensures { IfOk result (λ o. option_map pure_node o ≡ view_item_lookup one.now (at1 false (pure_node view.now) (pure_node index.now))) }
{
    match first_axis(view) {
        Some(axis) => item_where(alloc, one, axis, view, index),
        None => Ok(None),
    }
}

/// The view at a name over an index domain, where the name is the index.
fn item_where(
    alloc: Global,
    one: &Text,
    axis: &NodeDom,
    view: &Node,
    index: &Node,
) -> Result<Option<Boxed<Node>>, NoMemory>
    ensures { IfOk result (λ o. option_map pure_node o
        ≡ item_where one.now (pure_dom axis.now) (pure_node view.now) (pure_node index.now)) }
{
    match item_at(alloc, one, view)? {
        Some(item) => {
            let test = binary(alloc, true, Op2::Eq, name(alloc, one)?, index.copy(alloc)?)?;
            let gens = gens_where(alloc, one, axis.copy(alloc)?, test)?;
            Ok(Some(comprehension(alloc, item, gens)?))
        }
        None => Ok(None),
    }
}
