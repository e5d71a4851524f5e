//! Declared tables, and what an outer layer puts in front of them.
ghost use Rattle.std.specs.Prelude.{◌≡◌, [], ◌∷◌, ◌++◌, IfOk, map};
ghost use Rattle.ess_core_nodes.specs.NodeViews.{pure_dom};
ghost use Rattle.ess_repr_declare_laws.specs.DeclaredTrees.{decl, below_layer};
ghost use Rattle.ess_declared_trees.specs.TableViews.{pure_declared};

use ess_core_nodes::{NodeDom, copy_doms};
use ess_rows::{Boxed, NoMemory, Row, Text};
use std::alloc::Global;

/// A declared table: its name, the domains of its axes, and that of its cells.
#[derive(Drop)]
pub struct Declared {
    pub name: Text,
    pub axes: Row<NodeDom>,
    pub cell: Boxed<NodeDom>,
}

/// A table of this name, alone in a row.
pub(crate) fn one_table(
    alloc: Global,
    name: &str,
    axes: Row<NodeDom>,
    cell: Boxed<NodeDom>,
) -> Result<Row<Declared>, NoMemory>
    ensures { IfOk result (λ ts. map pure_declared ts ≡ decl name.now (map pure_dom axes) (pure_dom cell) ∷ []) }
{
    let name = Text::from_str(alloc, name)?;
    Row::from_array(alloc, [Declared { name, axes, cell }])
}

/// Copies of the tables, with an outer name and outer axes in front of theirs.
pub(crate) fn tables_below(
    alloc: Global,
    name: &Text,
    axes: &[NodeDom],
    tables: &[Declared],
) -> Result<Row<Declared>, NoMemory>
    ensures { IfOk result (λ ts. map pure_declared ts ≡ map (below_layer name.now (map pure_dom axes.now)) (map pure_declared tables.now)) }
{
    let mut all = Row::with_capacity(alloc, tables.len())?;
    for table in tables {
        all.push(table_below(alloc, name, axes, table)?)?;
    }
    Ok(all)
}

/// A copy of the table, with an outer name and outer axes in front of its own.
#[tactic(auto, using(crate::proofs::Rows::axes_joined))]
fn table_below(
    alloc: Global,
    name: &Text,
    axes: &[NodeDom],
    table: &Declared,
) -> Result<Declared, NoMemory>
    ensures { IfOk result (λ t. pure_declared t ≡ below_layer name.now (map pure_dom axes.now) (pure_declared table.now)) }
{
    let mut all = copy_doms(alloc, axes)?;
    let mut own = copy_doms(alloc, table.axes.as_slice())?;
    all.append(&mut own)?;
    let mut whole = name.copy(alloc)?;
    whole.push_str(table.name.as_str())?;
    let cell = table.cell.get().copy(alloc)?;
    Ok(Declared {
        name: whole,
        axes: all,
        cell,
    })
}

/// Tables behind others.
#[tactic(auto, using(crate::proofs::Rows::tables_joined))]
pub(crate) fn behind(
    mut first: Row<Declared>,
    mut others: Row<Declared>,
) -> Result<Row<Declared>, NoMemory>
    ensures { IfOk result (λ ts. map pure_declared ts ≡ map pure_declared first ++ map pure_declared others) }
{
    first.append(&mut others)?;
    Ok(first)
}
