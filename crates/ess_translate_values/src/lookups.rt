//! Tables found by their names.
ghost use Rattle.std.specs.Prelude.{◌≡◌, map, option_map, IfOk};
ghost use Rattle.ess_semantics.specs.Order.{same_text};
ghost use Rattle.ess_semantics.specs.Names.{look, keys};
ghost use Rattle.ess_semantics.specs.Meaning.{tables_in};
ghost use Rattle.ess_core.specs.TableViews.{pure_table, pure_named_table};
ghost use Rattle.ess_repr_tables.specs.SlotViews.{pure_tables};
ghost use Rattle.ess_translate_plans.specs.Views.{pure_table_name};

use crate::copies::copy_table;
use ess_core::{NamedTable, NoMemory, Row, Table, Text};
use ess_translate_plans::TableName;
use std::alloc::Global;
use std::cmp::Ordering;

/// Copies of the tables with these names, in order; nothing where one of them isn't there. `NoMemory` where there is no room for them.
#[tactic(auto, using(crate::proofs::FoundTables::tables_none, crate::proofs::FoundTables::tables_more, crate::proofs::FoundTables::tables_stop, crate::proofs::FoundTables::tables_all))]
pub(crate) fn tables_named(
    alloc: Global,
    names: &[TableName],
    cells: &[NamedTable],
) -> Result<Option<Row<Table>>, NoMemory>
    ensures { IfOk result (λ o. option_map pure_tables o ≡ tables_in (map pure_named_table cells.now)
        (keys (map pure_table_name names.now))) }
{
    let mut tables = Row::with_capacity(alloc, names.len())?;
    for name in names {
        match table_named(alloc, &name.name, cells)? {
            Some(table) => tables.push(table)?,
            None => return Ok(None),
        }
    }
    Ok(Some(tables))
}

/// A copy of the first table with this name, if there is one. `NoMemory` where there is no room for it.
#[tactic(auto, using(crate::proofs::FoundTables::look_none, crate::proofs::FoundTables::look_other, crate::proofs::FoundTables::look_here, crate::proofs::FoundTables::look_all))]
fn table_named(alloc: Global, name: &Text, cells: &[NamedTable]) -> Result<Option<Table>, NoMemory>
    ensures { IfOk result (λ o. option_map pure_table o ≡ look (map pure_named_table cells.now) name.now) }
{
    for cell in cells {
        if has_name(cell, name) {
            return Ok(Some(copy_table(alloc, &cell.table)?));
        }
    }
    Ok(None)
}

/// Whether a table has this name.
fn has_name(cell: &NamedTable, name: &Text) -> bool
    ensures { result ≡ same_text cell.now.name name.now }
{
    cell.name.cmp(name) == Ordering::Equal
}
