//! Items of views of matrices.
ghost use Rattle.std.specs.Prelude.{◌≡◌, option_map, IfOk, map};
ghost use Rattle.ess_semantics.specs.Trees.{repr, no_reprs, more_reprs, seen_ex, matrix_dom};
ghost use Rattle.ess_core.specs.TreeViews.{pure_repr};
ghost use Rattle.ess_core_nodes.specs.NodeViews.{pure_node, pure_nodes, pure_dom, pure_doms, pure_step};
ghost use Rattle.ess_rules_laws.specs.SetListings.{put_last};
ghost use Rattle.ess_views_laws.specs.MatrixViews.{behind_index, item_view};
ghost use Rattle.ess_rules_kinds.specs.ViewParts.{nested_view};
ghost use Rattle.ess_rules_kinds.specs.CodeParts.{pure_nested};
ghost use Rattle.ess_rules_items.specs.Indexed.{by_value_alone, indexed, item_of};

use ess_core::{Repr, ReprKind};
use ess_core_nodes::{Node, NodeDom, Op, Seen, Step, copy_doms, copy_nodes, copy_texts};
use ess_rows::{Boxed, NoMemory, Row, Text};
use ess_rules_forms::pair_in;
use ess_rules_kinds::{Nested, nested_parts};
use std::alloc::Global;

/// `v[i]` of a view of a matrix, where i is an index, becomes the view at i: of a matrix over several index domains the one over those
/// that are left. Nothing for another tree; `NoMemory` where there is no room for it.
#[tactic(auto, using(crate::proofs::IndexedForms::item_by_operands))]
pub fn item_view(alloc: Global, node: &Node) -> Result<Option<Boxed<Node>>, NoMemory>
    ensures { IfOk result (λ o. option_map pure_node o ≡ item_view (pure_node node.now)) }
{
    match indexed(node) {
        Some((view, index)) => item_of(alloc, view, index),
        None => Ok(None),
    }
}

/// The term and its one index.
#[tactic(auto, using(ess_core_nodes::proofs::NodeEquations::pure_seen_is, crate::proofs::IndexedForms::indexed_by_value, crate::proofs::IndexedForms::indexed_otherwise))]
fn indexed(node: &Node) -> Option<(&Node, &Node)>
    ensures { option_map (λ p. (pure_node p.0.now, pure_node p.1.now)) result ≡ indexed (pure_node node.now) }
{
    match node {
        Node::Op(_, Op::Index(steps), operands) => {
            if by_value_alone(steps.as_slice()) {
                pair_in(operands.as_slice())
            } else {
                None
            }
        }
        _ => None,
    }
}

/// Whether there is one step, which is a value.
fn by_value_alone(steps: &[Step]) -> bool
    ensures { result ≡ by_value_alone (map pure_step steps.now) }
{
    match steps.split_first() {
        None => false,
        Some((step, rest)) => match rest.split_first() {
            Some(_) => false,
            None => match step {
                Step::Value => true,
                _ => false,
            },
        },
    }
}

/// The view at an index.
#[tactic(auto, using(crate::proofs::IndexedForms::item_by_parts))]
fn item_of(alloc: Global, view: &Node, index: &Node) -> Result<Option<Boxed<Node>>, NoMemory>
    ensures { IfOk result (λ o. option_map pure_node o ≡ item_of (pure_node view.now) (pure_node index.now)) }
{
    match nested_parts(view) {
        Some(parts) => item_from(alloc, index, &parts),
        None => Ok(None),
    }
}

/// The same of the parts of a view.
fn item_from(
    alloc: Global,
    index: &Node,
    parts: &Nested<'_>,
) -> Result<Option<Boxed<Node>>, NoMemory>
    ensures { IfOk result (λ o. option_map pure_node o ≡ item_of (nested_view (pure_nested parts.now)) (pure_node index.now)) }
{
    match parts.kind {
        ReprKind::Matrix => match parts.dom {
            NodeDom::Matrix(axes, item) => match axes.as_slice().split_first() {
                Some((_, rest)) => {
                    let at = behind(alloc, parts.at, index)?;
                    Ok(Some(behind_index(alloc, parts.child, rest, item.get(), parts.cells, at)?))
                }
                None => Ok(None),
            },
            _ => Ok(None),
        },
        _ => Ok(None),
    }
}

/// The index list with an index behind.
#[tactic(auto, using(crate::proofs::IndexedForms::index_behind))]
fn behind(alloc: Global, at: &[Node], index: &Node) -> Result<Row<Node>, NoMemory>
    ensures { IfOk result (λ ns. pure_nodes ns ≡ put_last (pure_nodes at.now) (pure_node index.now)) }
{
    let mut all = copy_nodes(alloc, at)?;
    all.push(index.copy(alloc)?.into_inner())?;
    Ok(all)
}

/// The view behind one more index.
fn behind_index(
    alloc: Global,
    child: &Repr,
    axes: &[NodeDom],
    item: &NodeDom,
    cells: &[Text],
    at: Row<Node>,
) -> Result<Boxed<Node>, NoMemory>
    ensures { IfOk result (λ n. pure_node n
        ≡ behind_index (pure_repr child.now) (pure_doms axes.now) (pure_dom item.now) cells.now (pure_nodes at)) }
{
    match axes.split_first() {
        None => {
            let dom = item.copy(alloc)?;
            view(alloc, child, dom, cells, at)
        }
        Some(_) => matrix_view(alloc, child, axes, item, cells, at),
    }
}

/// The view of a matrix over the index domains that are left.
#[tactic(auto, using(ess_core::proofs::RepresentationEquations::pure_repr_is))]
fn matrix_view(
    alloc: Global,
    child: &Repr,
    axes: &[NodeDom],
    item: &NodeDom,
    cells: &[Text],
    at: Row<Node>,
) -> Result<Boxed<Node>, NoMemory>
    ensures { IfOk result (λ n. pure_node n ≡ seen_ex (repr ReprKind.Matrix (more_reprs (pure_repr child.now) no_reprs))
        (matrix_dom (pure_doms axes.now) (pure_dom item.now)) cells.now (pure_nodes at)) }
{
    let item = item.copy(alloc)?;
    let axes = copy_doms(alloc, axes)?;
    let dom = Boxed::new(alloc, NodeDom::Matrix(axes, item))?;
    let mut children = Row::new(alloc);
    children.push(child.copy(alloc)?)?;
    let repr = Repr {
        kind: ReprKind::Matrix,
        children,
    };
    view(alloc, &repr, dom, cells, at)
}

/// A view.
#[tactic(auto, using(ess_core_nodes::proofs::NodeEquations::pure_seen_is))]
fn view(
    alloc: Global,
    repr: &Repr,
    dom: Boxed<NodeDom>,
    cells: &[Text],
    at: Row<Node>,
) -> Result<Boxed<Node>, NoMemory>
    ensures { IfOk result (λ n. pure_node n ≡ seen_ex (pure_repr repr.now) (pure_dom dom) cells.now (pure_nodes at)) }
{
    let cells = copy_texts(alloc, cells)?;
    let repr = repr.copy(alloc)?;
    let seen = Boxed::new(
        alloc,
        Seen {
            repr,
            dom,
            cells,
            at,
        },
    )?;
    Boxed::new(alloc, Node::Seen(seen))
}
