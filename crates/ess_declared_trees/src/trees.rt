//! The tables of a representation: layer by layer.
ghost use Rattle.std.specs.Prelude.{◌≡◌, ◌||◌, IfOk, map};
ghost use Rattle.ess_semantics.specs.Choice.{reprs_of};
ghost use Rattle.ess_core.specs.TreeViews.{pure_repr};
ghost use Rattle.ess_core_nodes.specs.NodeViews.{pure_dom};
ghost use Rattle.ess_repr_declare_laws.specs.DeclaredTrees as pure;
ghost use Rattle.ess_declared_trees.specs.TableViews.{pure_declared};
ghost use Rattle.ess_declared_trees.specs.Endings.{trees_from};

use crate::axes::layer_axes;
use crate::children::child_doms;
use crate::names::child_names;
use crate::own_tables::own_trees;
use crate::tables::{Declared, behind, tables_below};
use ess_core::{Repr, ReprKind};
use ess_core_nodes::NodeDom;
use ess_rows::{NoMemory, Row, Text};
use std::alloc::Global;

/// The tables that a representation of a domain declares, below a layer that can be out of use or not: the ends of their names, the
/// domains of their axes, and those of their cells. A kind that isn't one for its domain has none. `NoMemory` where there is no room
/// for them.
#[cycle(trees)]
pub fn trees_below(
    alloc: Global,
    out: bool,
    repr: &Repr,
    dom: &NodeDom,
) -> Result<Row<Declared>, NoMemory>
    ensures { IfOk result (λ ts. map pure_declared ts ≡ pure.trees_below out (pure_repr repr.now) (pure_dom dom.now)) }
{
    let own = own_trees(alloc, out, repr.kind, dom)?;
    let axes = layer_axes(alloc, repr.kind, dom)?;
    let names = child_names(alloc, repr.kind, dom)?;
    let doms = child_doms(alloc, repr.kind, dom)?;
    let free = frees_below(out, repr.kind);
    let others = trees_of_children(
        alloc,
        free,
        repr.children.as_slice(),
        names.as_slice(),
        doms.as_slice(),
        axes.as_slice(),
    )?;
    behind(own, others)
}

/// The tables of the children with these domains, behind what stands between the names, and behind the layer's axes.
#[cycle(trees)]
#[tactic(auto, using(crate::proofs::ChildSteps::trees_more, crate::proofs::ChildSteps::no_child_left, crate::proofs::ChildSteps::no_name_left))]
fn trees_of_children(
    alloc: Global,
    out: bool,
    children: &[Repr],
    names: &[Text],
    doms: &[NodeDom],
    axes: &[NodeDom],
) -> Result<Row<Declared>, NoMemory>
    ensures { IfOk result (λ ts. map pure_declared ts
        ≡ trees_from out (reprs_of (map pure_repr children.now)) names.now (map pure_dom doms.now) (map pure_dom axes.now)) }
{
    let mut all = Row::new(alloc);
    let mut i = 0;
    while i < children.len() && i < names.len() {
        if i >= doms.len() {
            return Ok(all);
        }
        let own = trees_below(alloc, out, &children[i], &doms[i])?;
        let mut below = tables_below(alloc, &names[i], axes, own.as_slice())?;
        all.append(&mut below)?;
        i += 1;
    }
    Ok(all)
}

/// Whether the cells of the children of a layer of this kind can be out of use, where the layer can be or not.
fn frees_below(out: bool, kind: ReprKind) -> bool
    ensures { result ≡ (out || pure.frees_children kind) }
{
    out || frees_children(kind)
}

/// Whether the cells of the children of a layer of this kind can be out of use.
fn frees_children(kind: ReprKind) -> bool
    ensures { result ≡ pure.frees_children kind }
{
    match kind {
        ReprKind::ExplicitVarSizeWithMarker => true,
        ReprKind::ExplicitVarSizeWithFlags => true,
        ReprKind::MSetExplicitWithRepetition => true,
        ReprKind::MSetExplicitWithFlags => true,
        ReprKind::Function1DPartial => true,
        ReprKind::FunctionNDPartial => true,
        _ => false,
    }
}
