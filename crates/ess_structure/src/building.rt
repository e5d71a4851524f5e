//! The structure of a view: layer by layer.
ghost use Rattle.std.specs.Prelude.{◌≡◌, true, false, Some, IfOk, map};
ghost use Rattle.ess_semantics.specs.Choice.{reprs_of};
ghost use Rattle.ess_semantics.specs.Trees.{repr, no_reprs, more_reprs, truth_ex};
ghost use Rattle.ess_core.specs.TreeViews.{pure_repr};
ghost use Rattle.ess_core_nodes.specs.NodeViews.{pure_node, pure_nodes, pure_dom, pure_doms};
ghost use Rattle.ess_repr_laws.specs.CanonicalTables.{is_compound as has_components};
ghost use Rattle.ess_repr_laws.specs.Structure.{structure, structure_of_each};
ghost use Rattle.ess_repr_declare_laws.specs.SizeTerms.{size_terms};
ghost use Rattle.conjure_model_laws.specs.ToldApart.{reserved};
ghost use Rattle.ess_structure_domains.specs.InnerViews.{pure_inner};
ghost use Rattle.ess_structure_layers.specs.Over.{structure_over};
ghost use Rattle.ess_structure.specs.Together.{together};

use crate::parts::all_hold;
use crate::view_tables::tables;
use crate::widths::{own_width, width};
use ess_core::{Repr, ReprKind};
use ess_core_nodes::{Node, NodeDom};
use ess_node_building::truth;
use ess_rows::{Boxed, NoMemory, Row, Text};
use ess_structure_domains::{Inner, inner_of};
use ess_structure_layers::{behind, front, is_compound, layer_structure, leaf};
use ess_structure_terms::{level_behind, row_index};
use std::alloc::Global;

/// The constraint that the cells of a view, whose tables have these names, are canonical at an index list. The names that it binds are
/// the reserved ones from the number `level` on. False where the representation isn't one for the domain. `NoMemory` where there is
/// no room for it, or the reserved names can't be counted.
#[cycle(structure)]
#[tactic(auto, using(ess_structure_layers::proofs::ChildForms::is_alone, crate::proofs::ComponentSteps::many_structures, ess_core::proofs::RepresentationEquations::pure_repr_is))]
pub fn structure(
    alloc: Global,
    repr: &Repr,
    dom: &NodeDom,
    names: &[Text],
    level: u64,
    at: &[Node],
) -> Result<Boxed<Node>, NoMemory>
    ensures { IfOk result (λ n. pure_node n ≡ structure reserved size_terms (pure_repr repr.now) (pure_dom dom.now) names.now level
        (pure_nodes at.now)) }
{
    let children = repr.children.as_slice();
    if is_compound(repr.kind) {
        return compound(alloc, repr.kind, children, dom, names, level, at);
    }
    match children.split_first() {
        None => leaf(alloc, repr.kind, dom, names, level, at),
        Some((child, rest)) => match rest.split_first() {
            None => layer(alloc, repr.kind, child, dom, names, level, at),
            Some(_) => truth(alloc, false),
        },
    }
}

/// The structure of a tuple or record.
#[cycle(structure)]
fn compound(
    alloc: Global,
    kind: ReprKind,
    children: &[Repr],
    dom: &NodeDom,
    names: &[Text],
    level: u64,
    at: &[Node],
) -> Result<Boxed<Node>, NoMemory>
    requires { has_components kind ≡ true }
    ensures { IfOk result (λ n. pure_node n ≡ structure reserved size_terms (repr kind (reprs_of (map pure_repr children.now)))
        (pure_dom dom.now) names.now level (pure_nodes at.now)) }
{
    match kind {
        ReprKind::Tuple => match dom {
            NodeDom::Tuple(parts) => of_each(alloc, children, parts.as_slice(), names, level, at),
            _ => truth(alloc, false),
        },
        ReprKind::Rec => match dom {
            NodeDom::Record(_, parts) => of_each(
                alloc,
                children,
                parts.as_slice(),
                names,
                level,
                at,
            ),
            _ => truth(alloc, false),
        },
        _ => truth(alloc, false),
    }
}

/// The structures of components.
#[cycle(structure)]
fn of_each(
    alloc: Global,
    children: &[Repr],
    parts: &[NodeDom],
    names: &[Text],
    level: u64,
    at: &[Node],
) -> Result<Boxed<Node>, NoMemory>
    ensures { IfOk result (λ n. pure_node n ≡ structure_of_each reserved size_terms (reprs_of (map pure_repr children.now)) (pure_doms
        parts.now) names.now level (pure_nodes at.now)) }
{
    let all = parts_of_each(alloc, children, parts, names, level, at)?;
    all_hold(alloc, all)
}

/// The same, one by one.
#[cycle(structure)]
#[tactic(auto, using(crate::proofs::ComponentSteps::no_child_left, crate::proofs::ComponentSteps::no_component_left))]
fn parts_of_each(
    alloc: Global,
    children: &[Repr],
    parts: &[NodeDom],
    names: &[Text],
    level: u64,
    at: &[Node],
) -> Result<Row<Node>, NoMemory>
    ensures { IfOk result (λ ns. together (map pure_node ns) (truth_ex true) ≡ structure_of_each reserved size_terms (reprs_of (map
        pure_repr children.now)) (pure_doms parts.now) names.now level (pure_nodes at.now)) }
{
    let mut all = Row::new(alloc);
    let mut rest = names;
    let mut i = 0;
    while i < children.len() && i < parts.len() {
        let count = width(&children[i])?;
        let own = front(rest, count);
        let part = structure(alloc, &children[i], &parts[i], own, level, at)?;
        all.push(part.into_inner())?;
        rest = behind(rest, count);
        i += 1;
    }
    Ok(all)
}

/// The structure of a layer with one child: false where the kind isn't one for the domain.
#[cycle(structure)]
#[tactic(auto, using(crate::proofs::LayerSteps::structure_none))]
fn layer(
    alloc: Global,
    kind: ReprKind,
    child: &Repr,
    dom: &NodeDom,
    names: &[Text],
    level: u64,
    at: &[Node],
) -> Result<Boxed<Node>, NoMemory>
    requires { has_components kind ≡ false }
    ensures { IfOk result (λ n. pure_node n ≡ structure reserved size_terms (repr kind (more_reprs (pure_repr child.now) no_reprs))
        (pure_dom dom.now) names.now level (pure_nodes at.now)) }
{
    match inner_of(alloc, kind, dom)? {
        Some(inner) => layer_above(alloc, kind, child, &inner, dom, names, level, at),
        None => truth(alloc, false),
    }
}

/// The structure of a layer with this below it.
#[cycle(structure)]
fn layer_above(
    alloc: Global,
    kind: ReprKind,
    child: &Repr,
    inner: &Inner,
    dom: &NodeDom,
    names: &[Text],
    level: u64,
    at: &[Node],
) -> Result<Boxed<Node>, NoMemory>
    ensures { IfOk result (λ n. pure_node n ≡ structure_over (Some (pure_inner inner.now)) kind (pure_repr child.now) (pure_dom dom.now)
        names.now level (pure_nodes at.now)) }
{
    let (axes, rest) = (inner.axes.as_slice(), behind(names, own_width(kind)));
    let below = level_behind(level, axes)?;
    let index = row_index(alloc, level, axes, at)?;
    let tables = tables(alloc, child, inner.dom.get(), rest)?;
    let part = structure(alloc, child, inner.dom.get(), rest, below, index.as_slice())?;
    layer_structure(
        alloc,
        kind,
        child,
        dom,
        names,
        level,
        at,
        axes,
        tables.as_slice(),
        part,
    )
}
