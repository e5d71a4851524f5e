//! Declared tables in order beside those of a representation.
ghost use Rattle.std.specs.Prelude.{◌≡◌, ◌∷◌, [], IfOk, map};
ghost use Rattle.ess_semantics.specs.Plans.{from_one};
ghost use Rattle.ess_semantics.specs.Declarations.{declarations};
ghost use Rattle.ess_core.specs.TreeViews.{pure_repr};
ghost use Rattle.ess_eval_domains.specs.ClosedViews.{pure_closed};
ghost use Rattle.eprime_eval.specs.ClosedDomains.{pure_closed as pure_cells};
ghost use Rattle.ess_translate_members_laws.specs.CellForms.{plain};
ghost use Rattle.ess_translate_members_laws.specs.LayerCells.{tables_of};
ghost use Rattle.ess_translate_cells.specs.ClosedTables.{Decides, SameTable, Behind};

use crate::closing::ClosedTable;
use crate::comparing::{axes_fit, same_cells};
use crate::representations::cells_of;
use eprime_eval::{Closed as CellDomain, Run};
use ess_core::{NoMemory, Repr, Row};
use ess_eval_domains::Closed;
use ess_repr_closed::axes_of;
use std::alloc::Global;

/// The declared tables behind those of a representation of a domain, where these come first: over the same axes, and with the same
/// numbers as cells. None where they don't. `NoMemory` where there is no room to tell, or a size can't be counted.
#[tactic(auto, using(crate::proofs::TablesInOrder::representation_behind))]
pub fn behind_tables<'a>(
    alloc: Global,
    repr: &Repr,
    domain: &Closed,
    rest: &'a [ClosedTable],
) -> Result<Option<&'a [ClosedTable]>, NoMemory>
    ensures { IfOk result (λ o. Behind (map plain (declarations (pure_repr repr.now) (pure_closed domain.now))) rest.now o) }
{
    let axes = axes_of(alloc, repr, domain)?;
    let cells = cells_of(alloc, false, repr, domain)?;
    let found = behind_all(alloc, axes.as_slice(), cells.as_slice(), rest)?;
    Ok(found)
}

/// The declared tables behind one without axes whose cell is at least 1, where it comes first. None where it doesn't.
#[tactic(auto, using(crate::proofs::TablesInOrder::cell_behind))]
pub fn behind_cell<'a>(
    alloc: Global,
    rest: &'a [ClosedTable],
) -> Result<Option<&'a [ClosedTable]>, NoMemory>
    ensures { IfOk result (λ o. Behind (record { axes = []; cell = from_one } ∷ []) rest.now o) }
{
    let cell = at_least_one(alloc)?;
    let found = behind_one(alloc, &[], &cell, rest)?;
    Ok(found)
}

/// The numbers from 1 on.
fn at_least_one(alloc: Global) -> Result<CellDomain, NoMemory>
    ensures { IfOk result (λ c. pure_cells c ≡ from_one) }
{
    let run = Run {
        from: Some(1),
        to: None,
    };
    Ok(CellDomain::Numbers(Row::from_array(alloc, [run])?))
}

/// The declared tables behind those over these axes with these cells, one after the other.
#[tactic(auto, using(crate::proofs::TablesInOrder::in_order))]
fn behind_all<'a>(
    alloc: Global,
    axes: &[Row<Row<i64>>],
    cells: &[CellDomain],
    rest: &'a [ClosedTable],
) -> Result<Option<&'a [ClosedTable]>, NoMemory>
    ensures { IfOk result (λ o. Behind (tables_of axes.now (map pure_cells cells.now)) rest.now o) }
{
    let mut left = rest;
    for (place, cell) in cells.iter().enumerate() {
        if place >= axes.len() {
            return Ok(Some(left));
        }
        match behind_one(alloc, axes[place].as_slice(), cell, left)? {
            Some(more) => left = more,
            None => return Ok(None),
        }
    }
    Ok(Some(left))
}

/// The declared tables behind one over these axes with these cells.
#[tactic(auto, using(crate::proofs::TablesInOrder::first_table))]
fn behind_one<'a>(
    alloc: Global,
    axes: &[Row<i64>],
    cell: &CellDomain,
    rest: &'a [ClosedTable],
) -> Result<Option<&'a [ClosedTable]>, NoMemory>
    ensures { IfOk result (λ o. Behind (record { axes = axes.now; cell = pure_cells cell.now } ∷ []) rest.now o) }
{
    match rest.split_first() {
        Some((table, more)) => {
            if is_table(alloc, table, axes, cell)? {
                Ok(Some(more))
            } else {
                Ok(None)
            }
        }
        None => Ok(None),
    }
}

/// Whether a declared table is over these axes and has these cells. `NoMemory` where there is no room to tell.
#[tactic(auto, using(crate::proofs::TablesInOrder::other_axes, crate::proofs::TablesInOrder::cells_tell))]
fn is_table(
    alloc: Global,
    table: &ClosedTable,
    axes: &[Row<i64>],
    cell: &CellDomain,
) -> Result<bool, NoMemory>
    ensures { IfOk result (λ b. Decides b (SameTable table.now (record { axes = axes.now; cell = pure_cells cell.now }))) }
{
    if !axes_fit(alloc, table.axes.as_slice(), axes)? {
        return Ok(false);
    }
    same_cells(alloc, &table.cell, cell)
}
