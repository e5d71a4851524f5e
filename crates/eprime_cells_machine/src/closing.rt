ghost use Rattle.std.specs.Prelude.{◌≡◌, Some, IfOk, map};
ghost use Rattle.std.specs.Option.{option_map};
ghost use Rattle.eprime_read_cells_laws.specs.CellMachine.{with_value};
ghost use Rattle.eprime_cells_machine.specs.ValueViews.{pure_value, pure_lettings, list_of};
ghost use Rattle.eprime_cells_machine.specs.MachineViews.{view_state, view_lists, closed};

use crate::stages::{Begun, Stage, State, Wanted};
use crate::values::{CellLetting, CellList, CellRange, CellValue};
use ess_rows::{Boxed, NoMemory, Row};
use std::alloc::Global;

/// A list with or without its index domain.
pub(crate) fn list_value(
    alloc: Global,
    items: Row<CellValue>,
    ranges: Option<Row<CellRange>>,
) -> Result<CellValue, NoMemory>
    ensures { IfOk result (λ v. pure_value v ≡ list_of (map pure_value items) ranges) }
{
    Ok(CellValue::List(Boxed::new(alloc, CellList { items, ranges })?))
}

/// The state behind a value that was read: it is that of the name, or the next item of the innermost list.
pub(crate) fn with_value(begun: Begun, value: CellValue) -> Result<State, NoMemory>
    ensures { IfOk result (λ s. with_value (pure_lettings begun.done) begun.name (view_lists begun.lists) (pure_value value) ≡ Some (view_state s)) }
{
    let Begun { done, name, lists } = begun;
    let mut lists = lists;
    match lists.pop() {
        Some(items) => {
            let mut items = items;
            items.push(value)?;
            lists.push(items)?;
            Ok(State::InValue(Begun { done, name, lists }, Stage::ItemRead))
        }
        None => {
            let mut done = done;
            done.push(CellLetting { name, value })?;
            Ok(State::Outside(done, Wanted::Letting))
        }
    }
}

/// The state behind the innermost list, which is closed. None where no list is begun.
pub(crate) fn close(
    alloc: Global,
    begun: Begun,
    ranges: Option<Row<CellRange>>,
) -> Result<Option<State>, NoMemory>
    ensures { IfOk result (λ s. closed (pure_lettings begun.done) begun.name (view_lists begun.lists) ranges ≡ option_map view_state s) }
{
    let Begun { done, name, lists } = begun;
    let mut lists = lists;
    let Some(items) = lists.pop() else {
        return Ok(None);
    };
    let list = list_value(alloc, items, ranges)?;
    Ok(Some(with_value(Begun { done, name, lists }, list)?))
}
