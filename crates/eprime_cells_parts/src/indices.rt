ghost use Rattle.std.specs.Prelude.{◌≡◌, List, IfOk, length};
ghost use Rattle.ess_semantics.specs.Lists.{when};
ghost use Rattle.ess_semantics.specs.Trees.{int_dom, Ex};
ghost use Rattle.eprime_read_cells_laws.specs.CellMachine.{listed};
ghost use Rattle.eprime_cells_laws.specs.TableReading.{list_over, is_index_of};
ghost use Rattle.eprime_cells_machine.specs.ValueViews.{list_of, all_ends as ends_written, all_bounds};

use crate::sweeping::{all_ends, are_members, rising};
use eprime_cells_machine::CellRange;
use ess_rows::{NoMemory, Row};
use std::alloc::Global;

/// Whether a list of so many values, with an index domain of these ranges or without one, can stand over an axis: it has one
/// value for each member, and its index domain has the same members. `NoMemory` where there is no room for the ranges, which are
/// never listed.
pub fn is_over(
    alloc: Global,
    axis: &[i64],
    len: usize,
    ranges: &Option<Row<CellRange>>,
) -> Result<bool, NoMemory>
    ensures { IfOk result (λ b. (es : List Ex) → length es ≡ len → list_over axis.now (list_of es ranges.now) ≡ when b es) }
{
    if len != axis.len() {
        return Ok(false);
    }
    match ranges {
        None => Ok(true),
        Some(ranges) => Ok(is_index(alloc, axis, ranges.as_slice())?),
    }
}

/// Whether ranges have exactly the members of an axis. `NoMemory` where there is no room for them.
fn is_index(alloc: Global, axis: &[i64], ranges: &[CellRange]) -> Result<bool, NoMemory>
    ensures { IfOk result (λ b. is_index_of axis.now (int_dom (ends_written ranges.now) (listed (all_bounds ranges.now))) ≡ b) }
{
    let ranges = rising(all_ends(alloc, ranges)?)?;
    match ranges.first() {
        Some(lowest) => Ok(are_members(axis, lowest.from, ranges.as_slice())),
        None => Ok(false),
    }
}
