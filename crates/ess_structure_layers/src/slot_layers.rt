//! The structures of sets and multisets in slots, given that of their members.
ghost use Rattle.std.specs.Prelude.{◌≡◌, IfOk};
ghost use Rattle.ess_core.specs.TreeViews.{pure_repr};
ghost use Rattle.ess_core_nodes.specs.NodeViews.{pure_node, pure_nodes, pure_dom};
ghost use Rattle.ess_structure_terms.specs.ShapeViews.{pure_shapes};
ghost use Rattle.ess_structure_layers.specs.Layers as pure;

use crate::names::first_name;
use crate::views::{bare_mset, view_with_own};
use ess_core::{Repr, ReprKind};
use ess_core_nodes::{Node, NodeDom};
use ess_node_building::truth;
use ess_rows::{Boxed, NoMemory, Text};
use ess_size_terms::slots;
use ess_structure_attributes::{counted, explicit, flags, marker, repetition};
use ess_structure_terms::Shape;
use std::alloc::Global;

/// The structure of a set in slots that are all in use.
pub(crate) fn explicit_layer(
    alloc: Global,
    dom: &NodeDom,
    level: u64,
    at: &[Node],
    tables: &[Shape],
    part: Boxed<Node>,
) -> Result<Boxed<Node>, NoMemory>
    ensures { IfOk result (λ n. pure_node n ≡ pure.explicit_layer (pure_dom dom.now) level (pure_nodes at.now) (pure_shapes tables.now)
        (pure_node part)) }
{
    match dom {
        NodeDom::Set(marks, numbers, _) => {
            let size = slots(alloc, dom)?;
            let (marks, numbers) = (marks.as_slice(), numbers.as_slice());
            explicit(alloc, level, marks, numbers, size.get(), tables, at, part)
        }
        _ => truth(alloc, false),
    }
}

/// The structure of a set in slots up to a marker.
pub(crate) fn marker_layer(
    alloc: Global,
    dom: &NodeDom,
    names: &[Text],
    level: u64,
    at: &[Node],
    tables: &[Shape],
    part: Boxed<Node>,
) -> Result<Boxed<Node>, NoMemory>
    ensures { IfOk result (λ n. pure_node n ≡ pure.marker_layer (pure_dom dom.now) names.now level (pure_nodes at.now)
        (pure_shapes tables.now) (pure_node part)) }
{
    match dom {
        NodeDom::Set(marks, numbers, _) => {
            let name = first_name(alloc, names)?;
            let size = slots(alloc, dom)?;
            let (marks, numbers) = (marks.as_slice(), numbers.as_slice());
            marker(
                alloc,
                level,
                marks,
                numbers,
                size.get(),
                &name,
                tables,
                at,
                part,
            )
        }
        _ => truth(alloc, false),
    }
}

/// The structure of a set in slots with flags.
pub(crate) fn flags_layer(
    alloc: Global,
    dom: &NodeDom,
    names: &[Text],
    level: u64,
    at: &[Node],
    tables: &[Shape],
    part: Boxed<Node>,
) -> Result<Boxed<Node>, NoMemory>
    ensures { IfOk result (λ n. pure_node n ≡ pure.flags_layer (pure_dom dom.now) names.now level (pure_nodes at.now)
        (pure_shapes tables.now) (pure_node part)) }
{
    match dom {
        NodeDom::Set(marks, numbers, _) => {
            let name = first_name(alloc, names)?;
            let size = slots(alloc, dom)?;
            let (marks, numbers) = (marks.as_slice(), numbers.as_slice());
            flags(
                alloc,
                level,
                marks,
                numbers,
                size.get(),
                &name,
                tables,
                at,
                part,
            )
        }
        _ => truth(alloc, false),
    }
}

/// The structure of a multiset in slots with numbers of times.
pub(crate) fn counted_layer(
    alloc: Global,
    dom: &NodeDom,
    names: &[Text],
    level: u64,
    at: &[Node],
    tables: &[Shape],
    part: Boxed<Node>,
) -> Result<Boxed<Node>, NoMemory>
    ensures { IfOk result (λ n. pure_node n ≡ pure.counted_layer (pure_dom dom.now) names.now level (pure_nodes at.now)
        (pure_shapes tables.now) (pure_node part)) }
{
    match dom {
        NodeDom::MSet(marks, numbers, _) => {
            let name = first_name(alloc, names)?;
            let size = slots(alloc, dom)?;
            let (marks, numbers) = (marks.as_slice(), numbers.as_slice());
            counted(
                alloc,
                level,
                marks,
                numbers,
                size.get(),
                &name,
                tables,
                at,
                part,
            )
        }
        _ => truth(alloc, false),
    }
}

/// The structure of a multiset in slots up to a marker.
pub(crate) fn repetition_layer(
    alloc: Global,
    child: &Repr,
    dom: &NodeDom,
    names: &[Text],
    level: u64,
    at: &[Node],
    tables: &[Shape],
    part: Boxed<Node>,
) -> Result<Boxed<Node>, NoMemory>
    ensures { IfOk result (λ n. pure_node n ≡ pure.repetition_layer (pure_repr child.now) (pure_dom dom.now) names.now level
        (pure_nodes at.now) (pure_shapes tables.now) (pure_node part)) }
{
    match dom {
        NodeDom::MSet(marks, numbers, member) => {
            let name = first_name(alloc, names)?;
            let size = slots(alloc, dom)?;
            let bare = bare_mset(alloc, size.get(), member.get())?;
            let kind = ReprKind::MSetExplicitWithRepetition;
            let view = view_with_own(alloc, kind, child, bare, &name, tables, at)?;
            let (marks, numbers, size, view) = (
                marks.as_slice(),
                numbers.as_slice(),
                size.get(),
                view.get(),
            );
            repetition(
                alloc, level, marks, numbers, size, &name, tables, at, view, part,
            )
        }
        _ => truth(alloc, false),
    }
}
