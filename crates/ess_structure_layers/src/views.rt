//! Views whose attributes a structure asks, and the structures of functions with them.
ghost use Rattle.std.specs.Prelude.{◌≡◌, ◌∷◌, IfOk, map};
ghost use Rattle.ess_core.specs.TreeViews.{pure_repr};
ghost use Rattle.ess_core_nodes.specs.NodeViews.{pure_node, pure_nodes, pure_dom};
ghost use Rattle.ess_repr_laws.specs.FunctionParts.{bare_function_dom};
ghost use Rattle.ess_repr_laws.specs.MultisetParts.{bare_mset_dom};
ghost use Rattle.ess_repr_laws.specs.ViewParts.{shape_names, view_ex};
ghost use Rattle.ess_structure_terms.specs.ShapeViews.{pure_shapes};
ghost use Rattle.ess_structure_layers.specs.Layers.{view_over};

use crate::children::over_child;
use crate::names::{names_of, with_names};
use ess_core::{Key, Repr, ReprKind};
use ess_core_nodes::{Mark, Node, NodeDom};
use ess_node_building::only;
use ess_rows::{Boxed, NoMemory, Row, Text};
use ess_structure_attributes::view;
use ess_structure_terms::Shape;
use std::alloc::Global;

/// The domain of functions between these domains of which nothing is asked.
fn bare_function(alloc: Global, from: &NodeDom, to: &NodeDom) -> Result<Boxed<NodeDom>, NoMemory>
    ensures { IfOk result (λ d. pure_dom d ≡ bare_function_dom (pure_dom from.now) (pure_dom to.now)) }
{
    let from = from.copy(alloc)?;
    let to = to.copy(alloc)?;
    Boxed::new(
        alloc,
        NodeDom::Function(Row::new(alloc), Row::new(alloc), from, to),
    )
}

/// The domain of multisets of at most so many members of which nothing else is asked.
pub(crate) fn bare_mset(
    alloc: Global,
    size: &Node,
    member: &NodeDom,
) -> Result<Boxed<NodeDom>, NoMemory>
    ensures { IfOk result (λ d. pure_dom d ≡ bare_mset_dom (pure_node size.now) (pure_dom member.now)) }
{
    let numbers = only(alloc, size.copy(alloc)?)?;
    let member = member.copy(alloc)?;
    let marks = Row::from_array(alloc, [Mark::Valued(Key::MaxSize)])?;
    Boxed::new(alloc, NodeDom::MSet(marks, numbers, member))
}

/// What the tables of a child stand for.
pub(crate) fn child_view(
    alloc: Global,
    child: &Repr,
    dom: Boxed<NodeDom>,
    tables: &[Shape],
    at: &[Node],
) -> Result<Boxed<Node>, NoMemory>
    ensures { IfOk result (λ n. pure_node n ≡ view_ex (pure_repr child.now) (pure_dom dom) (pure_shapes tables.now) (pure_nodes at.now)) }
{
    let names = names_of(alloc, tables)?;
    let child = child.copy(alloc)?;
    view(alloc, child, dom, names, at)
}

/// What a layer of this kind over a child stands for, by the tables of the child.
fn view_of_tables(
    alloc: Global,
    kind: ReprKind,
    child: &Repr,
    dom: Boxed<NodeDom>,
    tables: &[Shape],
    at: &[Node],
) -> Result<Boxed<Node>, NoMemory>
    ensures { IfOk result (λ n. pure_node n ≡ view_over kind (pure_repr child.now) (pure_dom dom) (shape_names (pure_shapes tables.now))
        (pure_nodes at.now)) }
{
    let names = names_of(alloc, tables)?;
    let whole = over_child(alloc, kind, child)?;
    view(alloc, whole, dom, names, at)
}

/// The same, by the name of its own table and the tables of the child.
pub(crate) fn view_with_own(
    alloc: Global,
    kind: ReprKind,
    child: &Repr,
    dom: Boxed<NodeDom>,
    name: &Text,
    tables: &[Shape],
    at: &[Node],
) -> Result<Boxed<Node>, NoMemory>
    ensures { IfOk result (λ n. pure_node n ≡ view_over kind (pure_repr child.now) (pure_dom dom)
        (name.now ∷ shape_names (pure_shapes tables.now)) (pure_nodes at.now)) }
{
    let names = with_names(alloc, name.copy(alloc)?, tables)?;
    let whole = over_child(alloc, kind, child)?;
    view(alloc, whole, dom, names, at)
}

/// What a function between two domains stands for, which has no table of its own.
pub(crate) fn total_view(
    alloc: Global,
    kind: ReprKind,
    child: &Repr,
    from: &NodeDom,
    to: &NodeDom,
    tables: &[Shape],
    at: &[Node],
) -> Result<Boxed<Node>, NoMemory>
    ensures { IfOk result (λ n. pure_node n ≡ view_over kind (pure_repr child.now) (bare_function_dom (pure_dom from.now)
        (pure_dom to.now)) (shape_names (pure_shapes tables.now)) (pure_nodes at.now)) }
{
    let bare = bare_function(alloc, from, to)?;
    view_of_tables(alloc, kind, child, bare, tables, at)
}

/// What a function between two domains stands for, whose own table has this name.
pub(crate) fn partial_view(
    alloc: Global,
    kind: ReprKind,
    child: &Repr,
    from: &NodeDom,
    to: &NodeDom,
    name: &Text,
    tables: &[Shape],
    at: &[Node],
) -> Result<Boxed<Node>, NoMemory>
    ensures { IfOk result (λ n. pure_node n ≡ view_over kind (pure_repr child.now) (bare_function_dom (pure_dom from.now)
        (pure_dom to.now)) (name.now ∷ shape_names (pure_shapes tables.now)) (pure_nodes at.now)) }
{
    let bare = bare_function(alloc, from, to)?;
    view_with_own(alloc, kind, child, bare, name, tables, at)
}
