ghost use Rattle.std.specs.Prelude.{◌≡◌, [], IfOk};
ghost use Rattle.eprime_cells_laws.specs.TableReading.{items_over};
ghost use Rattle.eprime_cells_machine.specs.ValueViews.{pure_value};
ghost use Rattle.eprime_cells_judging.specs.Putting.{Puts, all_items};

use eprime_cells_machine::CellValue;
use eprime_cells_parts::{is_over, item_of};
use ess_rows::{NoMemory, Row};
use std::alloc::Global;

/// Puts the items of a value over axes behind others, and answers whether it stands for a table over them. Where it doesn't, some
/// items may have been put. `NoMemory` where there is no room for them.
#[cycle(items)]
pub(crate) fn put_items(
    alloc: Global,
    axes: &[Row<i64>],
    truths: bool,
    value: &CellValue,
    items: &mut Row<i64>,
) -> Result<bool, NoMemory>
    ensures { IfOk result (λ b. Puts (items_over axes.now truths (pure_value value.now)) items.old items.new b) }
{
    let Some((axis, inner)) = axes.split_first() else {
        return put_item(truths, value, items);
    };
    match value {
        CellValue::List(list) => {
            let list = list.get();
            if !is_over(alloc, axis.as_slice(), list.items.len(), &list.ranges)? {
                return Ok(false);
            }
            put_all(alloc, inner, truths, list.items.as_slice(), items)
        }
        _ => Ok(false),
    }
}

/// Puts the items of several values over axes behind others, and answers whether each stands for a table over them.
#[cycle(items)]
fn put_all(
    alloc: Global,
    axes: &[Row<i64>],
    truths: bool,
    values: &[CellValue],
    items: &mut Row<i64>,
) -> Result<bool, NoMemory>
    ensures { IfOk result (λ b. Puts (all_items (items_over axes.now truths) values.now) items.old items.new b) }
{
    for value in values {
        if !put_items(alloc, axes, truths, value, items)? {
            return Ok(false);
        }
    }
    Ok(true)
}

/// Puts an item behind others, where the value is one.
fn put_item(truths: bool, value: &CellValue, items: &mut Row<i64>) -> Result<bool, NoMemory>
    ensures { IfOk result (λ b. Puts (items_over [] truths (pure_value value.now)) items.old items.new b) }
{
    match item_of(value, truths) {
        Some(item) => {
            items.push(item)?;
            Ok(true)
        }
        None => Ok(false),
    }
}
