//! The tables of a view: layer by layer.
ghost use Rattle.std.specs.Prelude.{◌≡◌, true, false, Some, IfOk, map};
ghost use Rattle.ess_semantics.specs.Choice.{reprs_of};
ghost use Rattle.ess_semantics.specs.Trees.{repr, no_reprs, more_reprs};
ghost use Rattle.ess_core.specs.TreeViews.{pure_repr};
ghost use Rattle.ess_core_nodes.specs.NodeViews.{pure_dom, pure_doms};
ghost use Rattle.ess_repr_laws.specs.CanonicalTables.{is_compound as has_components};
ghost use Rattle.ess_repr_laws.specs.Structure.{shapes, shapes_of_each};
ghost use Rattle.ess_repr_declare_laws.specs.SizeTerms.{size_terms};
ghost use Rattle.conjure_model_laws.specs.ToldApart.{reserved};
ghost use Rattle.ess_structure_terms.specs.ShapeViews.{pure_shapes};
ghost use Rattle.ess_structure_domains.specs.InnerViews.{pure_inner};
ghost use Rattle.ess_structure_layers.specs.Over.{shapes_over};

use crate::widths::{own_width, width};
use ess_core::{Repr, ReprKind};
use ess_core_nodes::NodeDom;
use ess_rows::{NoMemory, Row, Text};
use ess_structure_domains::{Inner, inner_of};
use ess_structure_layers::{behind, front, is_compound, layer_tables, leaf_tables};
use ess_structure_terms::Shape;
use std::alloc::Global;

/// The tables of a view of a domain under a representation, which have these names: their names, whether they hold truth values, and
/// their axes. None where the representation isn't one for the domain. `NoMemory` where there is no room for them.
#[cycle(tables)]
#[tactic(auto, using(ess_structure_layers::proofs::ChildForms::is_alone, crate::proofs::ComponentSteps::many_tables, ess_core::proofs::RepresentationEquations::pure_repr_is))]
pub fn tables(
    alloc: Global,
    repr: &Repr,
    dom: &NodeDom,
    names: &[Text],
) -> Result<Row<Shape>, NoMemory>
    ensures { IfOk result (λ ss. pure_shapes ss ≡ shapes reserved size_terms (pure_repr repr.now) (pure_dom dom.now) names.now) }
{
    let children = repr.children.as_slice();
    if is_compound(repr.kind) {
        return compound_tables(alloc, repr.kind, children, dom, names);
    }
    match children.split_first() {
        None => leaf_tables(alloc, repr.kind, dom, names),
        Some((child, rest)) => match rest.split_first() {
            None => tables_over(alloc, repr.kind, child, dom, names),
            Some(_) => Ok(Row::new(alloc)),
        },
    }
}

/// The tables of a tuple or record.
#[cycle(tables)]
fn compound_tables(
    alloc: Global,
    kind: ReprKind,
    children: &[Repr],
    dom: &NodeDom,
    names: &[Text],
) -> Result<Row<Shape>, NoMemory>
    requires { has_components kind ≡ true }
    ensures { IfOk result (λ ss. pure_shapes ss ≡ shapes reserved size_terms (repr kind (reprs_of (map pure_repr children.now)))
        (pure_dom dom.now) names.now) }
{
    match kind {
        ReprKind::Tuple => match dom {
            NodeDom::Tuple(parts) => tables_of_each(alloc, children, parts.as_slice(), names),
            _ => Ok(Row::new(alloc)),
        },
        ReprKind::Rec => match dom {
            NodeDom::Record(_, parts) => tables_of_each(alloc, children, parts.as_slice(), names),
            _ => Ok(Row::new(alloc)),
        },
        _ => Ok(Row::new(alloc)),
    }
}

/// The tables of the views of components, one behind the other.
#[cycle(tables)]
#[tactic(auto, using(crate::proofs::ComponentSteps::tables_more, crate::proofs::ComponentSteps::no_table_left, crate::proofs::ComponentSteps::no_part_left))]
fn tables_of_each(
    alloc: Global,
    children: &[Repr],
    parts: &[NodeDom],
    names: &[Text],
) -> Result<Row<Shape>, NoMemory>
    ensures { IfOk result (λ ss. pure_shapes ss ≡ shapes_of_each reserved size_terms (reprs_of (map pure_repr children.now)) (pure_doms
        parts.now) names.now) }
{
    let mut all = Row::new(alloc);
    let mut rest = names;
    let mut i = 0;
    while i < children.len() && i < parts.len() {
        let count = width(&children[i])?;
        let mut own = tables(alloc, &children[i], &parts[i], front(rest, count))?;
        all.append(&mut own)?;
        rest = behind(rest, count);
        i += 1;
    }
    Ok(all)
}

/// The tables of a layer with one child: none where the kind isn't one for the domain.
#[cycle(tables)]
#[tactic(auto, using(crate::proofs::LayerSteps::tables_none))]
fn tables_over(
    alloc: Global,
    kind: ReprKind,
    child: &Repr,
    dom: &NodeDom,
    names: &[Text],
) -> Result<Row<Shape>, NoMemory>
    requires { has_components kind ≡ false }
    ensures { IfOk result (λ ss. pure_shapes ss ≡ shapes reserved size_terms (repr kind (more_reprs (pure_repr child.now) no_reprs))
        (pure_dom dom.now) names.now) }
{
    match inner_of(alloc, kind, dom)? {
        Some(inner) => tables_above(alloc, kind, child, &inner, names),
        None => Ok(Row::new(alloc)),
    }
}

/// The tables of a layer with this below it.
#[cycle(tables)]
fn tables_above(
    alloc: Global,
    kind: ReprKind,
    child: &Repr,
    inner: &Inner,
    names: &[Text],
) -> Result<Row<Shape>, NoMemory>
    ensures { IfOk result (λ ss. pure_shapes ss ≡ shapes_over (Some (pure_inner inner.now)) kind (pure_repr child.now) names.now) }
{
    let rest = behind(names, own_width(kind));
    let below = tables(alloc, child, inner.dom.get(), rest)?;
    layer_tables(alloc, kind, names, inner.axes.as_slice(), below.as_slice())
}
