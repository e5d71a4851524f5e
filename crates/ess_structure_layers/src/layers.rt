//! The structures of layers with one child, given that of the child: all kinds; functions, and values that are kept as sets or relations.
ghost use Rattle.std.specs.Prelude.{◌≡◌, ◌∷◌, IfOk, map};
ghost use Rattle.ess_core.specs.TreeViews.{pure_repr};
ghost use Rattle.ess_core_nodes.specs.NodeViews.{pure_node, pure_nodes, pure_dom, pure_doms, pure_mark};
ghost use Rattle.ess_repr_laws.specs.StructureParts.{and_ex, keys_ex, tuple_set_dom, first_name as pure_first_name};
ghost use Rattle.ess_repr_laws.specs.FunctionParts.{bare_function_dom, total_ex, partial_ex};
ghost use Rattle.ess_repr_laws.specs.RelationParts.{relation_key_ex};
ghost use Rattle.ess_repr_laws.specs.ViewParts.{shape_names, view_ex};
ghost use Rattle.conjure_model_laws.specs.ToldApart.{reserved};
ghost use Rattle.ess_structure_terms.specs.ShapeViews.{pure_shapes};
ghost use Rattle.ess_structure_layers.specs.Layers as pure;

use crate::names::first_name;
use crate::slot_layers::{
    counted_layer, explicit_layer, flags_layer, marker_layer, repetition_layer,
};
use crate::views::{child_view, partial_view, total_view};
use ess_core::{Repr, ReprKind};
use ess_core_nodes::{Mark, Node, NodeDom};
use ess_node_building::truth;
use ess_rows::{Boxed, NoMemory, Row, Text};
use ess_structure_attributes::{pairs, partial, parts, relation_keys, total};
use ess_structure_domains::{pair_relation, part_sets, tuple_set};
use ess_structure_terms::{Shape, both, each};
use std::alloc::Global;

/// The structure of a layer of this kind over a child: its tables have these names, and the child has these tables. It is at an index
/// list, and binds names from the number `level` on. Given are the axes that the layer puts before those of its child, and the
/// structure of the child (`part`) at their places. False where the kind isn't one for the domain. `NoMemory` where there is no room
/// for it, or the reserved names can't be counted.
pub fn layer_structure(
    alloc: Global,
    kind: ReprKind,
    child: &Repr,
    dom: &NodeDom,
    names: &[Text],
    level: u64,
    at: &[Node],
    axes: &[NodeDom],
    tables: &[Shape],
    part: Boxed<Node>,
) -> Result<Boxed<Node>, NoMemory>
    ensures { IfOk result (λ n. pure_node n ≡ pure.layer_structure kind (pure_repr child.now) (pure_dom dom.now) names.now level
        (pure_nodes at.now) (map pure_dom axes.now) (pure_shapes tables.now) (pure_node part)) }
{
    match kind {
        ReprKind::Matrix => each(alloc, level, axes, part),
        ReprKind::Explicit => explicit_layer(alloc, dom, level, at, tables, part),
        ReprKind::ExplicitVarSizeWithMarker => marker_layer(
            alloc, dom, names, level, at, tables, part,
        ),
        ReprKind::ExplicitVarSizeWithFlags => flags_layer(
            alloc, dom, names, level, at, tables, part,
        ),
        ReprKind::MSetExplicitWithFlags => counted_layer(
            alloc, dom, names, level, at, tables, part,
        ),
        ReprKind::MSetExplicitWithRepetition => repetition_layer(
            alloc, child, dom, names, level, at, tables, part,
        ),
        ReprKind::Function1D => total_layer(alloc, kind, child, dom, level, at, axes, tables, part),
        ReprKind::FunctionND => total_layer(alloc, kind, child, dom, level, at, axes, tables, part),
        ReprKind::Function1DPartial => partial_layer(
            alloc, kind, child, dom, names, level, at, axes, tables, part,
        ),
        ReprKind::FunctionNDPartial => partial_layer(
            alloc, kind, child, dom, names, level, at, axes, tables, part,
        ),
        ReprKind::RelationAsSet => tuples_layer(alloc, child, dom, level, at, tables, part),
        ReprKind::FunctionAsRelation => pairs_layer(alloc, child, dom, level, at, tables, part),
        ReprKind::PartitionAsSet => parts_layer(alloc, child, dom, level, at, tables, part),
        _ => truth(alloc, false),
    }
}

/// The structure of a function with a value at each place of the axes.
fn total_layer(
    alloc: Global,
    kind: ReprKind,
    child: &Repr,
    dom: &NodeDom,
    level: u64,
    at: &[Node],
    axes: &[NodeDom],
    tables: &[Shape],
    part: Boxed<Node>,
) -> Result<Boxed<Node>, NoMemory>
    ensures { IfOk result (λ n. pure_node n ≡ pure.total_layer kind (pure_repr child.now) (pure_dom dom.now) level (pure_nodes at.now)
        (map pure_dom axes.now) (pure_shapes tables.now) (pure_node part)) }
{
    match dom {
        NodeDom::Function(marks, numbers, from, to) => {
            total_over(
                alloc, kind, child, marks, numbers, from, to, level, at, axes, tables, part,
            )
        }
        _ => truth(alloc, false),
    }
}

/// The same of functions between two domains with these attributes.
fn total_over(
    alloc: Global,
    kind: ReprKind,
    child: &Repr,
    marks: &Row<Mark>,
    numbers: &Row<Node>,
    from: &Boxed<NodeDom>,
    to: &Boxed<NodeDom>,
    level: u64,
    at: &[Node],
    axes: &[NodeDom],
    tables: &[Shape],
    part: Boxed<Node>,
) -> Result<Boxed<Node>, NoMemory>
    ensures { IfOk result (λ n. pure_node n ≡ total_ex reserved level (map pure_mark marks.now) (pure_nodes numbers.now)
        (map pure_dom axes.now) (pure_shapes tables.now) (pure_nodes at.now) (pure_repr child.now) (pure_dom to.now)
        (pure.view_over kind (pure_repr child.now) (bare_function_dom (pure_dom from.now) (pure_dom to.now))
        (shape_names (pure_shapes tables.now)) (pure_nodes at.now)) (pure_node part)) }
{
    let (marks, numbers) = (marks.as_slice(), numbers.as_slice());
    let (from, to) = (from.get(), to.get());
    let view = total_view(alloc, kind, child, from, to, tables, at)?;
    let seen = view.get();
    let whole = total(
        alloc, level, marks, numbers, axes, tables, at, child, to, seen, part,
    )?;
    Ok(whole)
}

/// The structure of a function with a flag and a value at each place of the axes.
fn partial_layer(
    alloc: Global,
    kind: ReprKind,
    child: &Repr,
    dom: &NodeDom,
    names: &[Text],
    level: u64,
    at: &[Node],
    axes: &[NodeDom],
    tables: &[Shape],
    part: Boxed<Node>,
) -> Result<Boxed<Node>, NoMemory>
    ensures { IfOk result (λ n. pure_node n ≡ pure.partial_layer kind (pure_repr child.now) (pure_dom dom.now) names.now level
        (pure_nodes at.now) (map pure_dom axes.now) (pure_shapes tables.now) (pure_node part)) }
{
    match dom {
        NodeDom::Function(marks, numbers, from, to) => {
            partial_over(
                alloc, kind, child, marks, numbers, from, to, names, level, at, axes, tables, part,
            )
        }
        _ => truth(alloc, false),
    }
}

/// The same of functions between two domains with these attributes.
fn partial_over(
    alloc: Global,
    kind: ReprKind,
    child: &Repr,
    marks: &Row<Mark>,
    numbers: &Row<Node>,
    from: &Boxed<NodeDom>,
    to: &Boxed<NodeDom>,
    names: &[Text],
    level: u64,
    at: &[Node],
    axes: &[NodeDom],
    tables: &[Shape],
    part: Boxed<Node>,
) -> Result<Boxed<Node>, NoMemory>
    ensures { IfOk result (λ n. pure_node n ≡ partial_ex reserved level (map pure_mark marks.now) (pure_nodes numbers.now)
        (map pure_dom axes.now) (pure_first_name names.now) (pure_nodes at.now) (pure_shapes tables.now) (pure_dom to.now)
        (pure.view_over kind (pure_repr child.now) (bare_function_dom (pure_dom from.now) (pure_dom to.now))
        (pure_first_name names.now ∷ shape_names (pure_shapes tables.now)) (pure_nodes at.now)) (pure_node part)) }
{
    let (marks, numbers) = (marks.as_slice(), numbers.as_slice());
    let (from, to) = (from.get(), to.get());
    let name = first_name(alloc, names)?;
    let view = partial_view(alloc, kind, child, from, to, &name, tables, at)?;
    let seen = view.get();
    let whole = partial(
        alloc, level, marks, numbers, axes, &name, at, tables, to, seen, part,
    )?;
    Ok(whole)
}

/// The structure of a relation as the set of its tuples.
fn tuples_layer(
    alloc: Global,
    child: &Repr,
    dom: &NodeDom,
    level: u64,
    at: &[Node],
    tables: &[Shape],
    part: Boxed<Node>,
) -> Result<Boxed<Node>, NoMemory>
    ensures { IfOk result (λ n. pure_node n ≡ pure.tuples_layer (pure_repr child.now) (pure_dom dom.now) level (pure_nodes at.now)
        (pure_shapes tables.now) (pure_node part)) }
{
    match dom {
        NodeDom::Relation(marks, numbers, parts) => tuples_over(
            alloc, child, marks, numbers, parts, level, at, tables, part,
        ),
        _ => truth(alloc, false),
    }
}

/// The same of relations over some domains with these attributes.
fn tuples_over(
    alloc: Global,
    child: &Repr,
    marks: &Row<Mark>,
    numbers: &Row<Node>,
    parts: &Row<NodeDom>,
    level: u64,
    at: &[Node],
    tables: &[Shape],
    part: Boxed<Node>,
) -> Result<Boxed<Node>, NoMemory>
    ensures { IfOk result (λ n. pure_node n ≡ and_ex (pure_node part) (keys_ex (relation_key_ex reserved level (pure_doms parts.now)
        (view_ex (pure_repr child.now) (tuple_set_dom (map pure_mark marks.now) (pure_nodes numbers.now) (pure_doms parts.now))
        (pure_shapes tables.now) (pure_nodes at.now))) (map pure_mark marks.now))) }
{
    let (marks, numbers, parts) = (marks.as_slice(), numbers.as_slice(), parts.as_slice());
    let set = tuple_set(alloc, marks, numbers, parts)?;
    let view = child_view(alloc, child, set, tables, at)?;
    let seen = view.get();
    let keys = relation_keys(alloc, level, parts, seen, marks)?;
    let whole = both(alloc, part, keys)?;
    Ok(whole)
}

/// The structure of a function as the relation of its pairs.
fn pairs_layer(
    alloc: Global,
    child: &Repr,
    dom: &NodeDom,
    level: u64,
    at: &[Node],
    tables: &[Shape],
    part: Boxed<Node>,
) -> Result<Boxed<Node>, NoMemory>
    ensures { IfOk result (λ n. pure_node n ≡ pure.pairs_layer (pure_repr child.now) (pure_dom dom.now) level (pure_nodes at.now)
        (pure_shapes tables.now) (pure_node part)) }
{
    match dom {
        NodeDom::Function(marks, numbers, from, to) => {
            let (marks, numbers, from, to) = (
                marks.as_slice(),
                numbers.as_slice(),
                from.get(),
                to.get(),
            );
            let relation = pair_relation(alloc, marks, numbers, from, to)?;
            let view = child_view(alloc, child, relation, tables, at)?;
            let asked = pairs(alloc, level, marks, numbers, from, to, view.get())?;
            both(alloc, part, asked)
        }
        _ => truth(alloc, false),
    }
}

/// The structure of a partition as the set of its parts.
fn parts_layer(
    alloc: Global,
    child: &Repr,
    dom: &NodeDom,
    level: u64,
    at: &[Node],
    tables: &[Shape],
    part: Boxed<Node>,
) -> Result<Boxed<Node>, NoMemory>
    ensures { IfOk result (λ n. pure_node n ≡ pure.parts_layer (pure_repr child.now) (pure_dom dom.now) level (pure_nodes at.now)
        (pure_shapes tables.now) (pure_node part)) }
{
    match dom {
        NodeDom::Partition(marks, numbers, member) => {
            let (marks, numbers, member) = (marks.as_slice(), numbers.as_slice(), member.get());
            let set = part_sets(alloc, marks, numbers, member)?;
            let view = child_view(alloc, child, set, tables, at)?;
            let asked = parts(alloc, level, marks, member, view.get())?;
            both(alloc, part, asked)
        }
        _ => truth(alloc, false),
    }
}
