//! The tables of a layer with one child, by those of the child: its own ones, and axes put before those of the child's tables.
ghost use Rattle.std.specs.Prelude.{◌≡◌, [], ◌∷◌, ◌++◌, IfOk, map};
ghost use Rattle.ess_core_nodes.specs.NodeViews.{pure_dom};
ghost use Rattle.ess_repr_laws.specs.StructureParts.{on_axes, own_shape};
ghost use Rattle.ess_structure_terms.specs.ShapeViews.{pure_shape, pure_shapes};
ghost use Rattle.ess_structure_layers.specs.Layers.{own_shapes};

use crate::names::first_name;
use ess_core::ReprKind;
use ess_core_nodes::{NodeDom, copy_doms};
use ess_rows::{NoMemory, Row, Text};
use ess_structure_terms::Shape;
use std::alloc::Global;

/// A table by the first of these names, alone in a row.
pub(crate) fn own_table(
    alloc: Global,
    names: &[Text],
    truth: bool,
    axes: Row<NodeDom>,
) -> Result<Row<Shape>, NoMemory>
    ensures { IfOk result (λ ss. pure_shapes ss ≡ own_shape names.now truth (map pure_dom axes) ∷ []) }
{
    let name = first_name(alloc, names)?;
    Row::from_array(alloc, [Shape { name, truth, axes }])
}

/// Tables behind a first one.
pub(crate) fn behind_own(
    mut own: Row<Shape>,
    mut others: Row<Shape>,
) -> Result<Row<Shape>, NoMemory>
    ensures { IfOk result (λ ss. pure_shapes ss ≡ pure_shapes own ++ pure_shapes others) }
{
    own.append(&mut others)?;
    Ok(own)
}

/// A copy of the table with further axes in front.
#[tactic(auto, using(crate::proofs::Listed::axes_joined))]
fn table_on_axes(alloc: Global, axes: &[NodeDom], table: &Shape) -> Result<Shape, NoMemory>
    ensures { IfOk result (λ s. pure_shape s ≡ on_axes (map pure_dom axes.now) (pure_shape table.now)) }
{
    let mut all = copy_doms(alloc, axes)?;
    let mut own = copy_doms(alloc, table.axes.as_slice())?;
    all.append(&mut own)?;
    let name = table.name.copy(alloc)?;
    Ok(Shape {
        name,
        truth: table.truth,
        axes: all,
    })
}

/// Copies of the tables with further axes in front.
fn on_axes(alloc: Global, axes: &[NodeDom], tables: &[Shape]) -> Result<Row<Shape>, NoMemory>
    ensures { IfOk result (λ ss. pure_shapes ss ≡ map (on_axes (map pure_dom axes.now)) (pure_shapes tables.now)) }
{
    let mut all = Row::with_capacity(alloc, tables.len())?;
    for table in tables {
        all.push(table_on_axes(alloc, axes, table)?)?;
    }
    Ok(all)
}

/// The tables that a layer of this kind has of its own: a marker, flags, or numbers of times.
fn tables_beside(
    alloc: Global,
    kind: ReprKind,
    names: &[Text],
    axes: &[NodeDom],
) -> Result<Row<Shape>, NoMemory>
    ensures { IfOk result (λ ss. pure_shapes ss ≡ own_shapes kind names.now (map pure_dom axes.now)) }
{
    match kind {
        ReprKind::ExplicitVarSizeWithMarker => own_table(alloc, names, false, Row::new(alloc)),
        ReprKind::ExplicitVarSizeWithFlags => own_table(
            alloc,
            names,
            true,
            copy_doms(alloc, axes)?,
        ),
        ReprKind::MSetExplicitWithFlags => own_table(alloc, names, false, copy_doms(alloc, axes)?),
        ReprKind::MSetExplicitWithRepetition => own_table(alloc, names, false, Row::new(alloc)),
        ReprKind::Function1DPartial => own_table(alloc, names, true, copy_doms(alloc, axes)?),
        ReprKind::FunctionNDPartial => own_table(alloc, names, true, copy_doms(alloc, axes)?),
        _ => Ok(Row::new(alloc)),
    }
}

/// The tables of a layer of this kind, whose tables have these names: its own ones, and those of its child, with the axes of the layer
/// before theirs. `NoMemory` where there is no room for them.
pub fn layer_tables(
    alloc: Global,
    kind: ReprKind,
    names: &[Text],
    axes: &[NodeDom],
    tables: &[Shape],
) -> Result<Row<Shape>, NoMemory>
    ensures { IfOk result (λ ss. pure_shapes ss ≡ own_shapes kind names.now (map pure_dom axes.now) ++ map (on_axes (map pure_dom
        axes.now)) (pure_shapes tables.now)) }
{
    let own = tables_beside(alloc, kind, names, axes)?;
    let others = on_axes(alloc, axes, tables)?;
    behind_own(own, others)
}
