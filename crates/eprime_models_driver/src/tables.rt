use crate::numbers::{number_of, put_numbers};
use ess_core::{Cells, NamedTable, Table};
use ess_rows::{NoMemory, Row, Text};
use std::alloc::Global;

/// The tables of a text: `NAME@AXIS@AXIS=ITEMS` for each, with any number of axes, and with `;` between each two. An axis and the
/// items are numbers with `,` between each two.
pub fn tables_of(alloc: Global, text: &str) -> Result<Cells, NoMemory> {
    let mut list = Row::new(alloc);
    for part in text.split(';') {
        if !part.is_empty() {
            list.push(named_table(alloc, part)?)?;
        }
    }
    Ok(Cells { list })
}

/// A table with its name.
fn named_table(alloc: Global, text: &str) -> Result<NamedTable, NoMemory> {
    let (left, items) = text.split_once('=').unwrap_or((text, ""));
    let (name, _) = left.split_once('@').unwrap_or((left, ""));
    let name = Text::from_str(alloc, name)?;
    let axes = axes_of(alloc, left)?;
    let items = numbers_of(alloc, items)?;
    let table = Table { axes, items };
    Ok(NamedTable { name, table })
}

/// The axes of a text, which stand behind a name.
fn axes_of(alloc: Global, text: &str) -> Result<Row<Row<i64>>, NoMemory> {
    let mut axes = Row::new(alloc);
    for (index, axis) in text.split('@').enumerate() {
        if index > 0 {
            axes.push(numbers_of(alloc, axis)?)?;
        }
    }
    Ok(axes)
}

/// The numbers of a text.
fn numbers_of(alloc: Global, text: &str) -> Result<Row<i64>, NoMemory> {
    let mut numbers = Row::new(alloc);
    for word in text.split(',') {
        if let Some(number) = number_of(word) {
            numbers.push(number)?;
        }
    }
    Ok(numbers)
}

/// Puts tables with `; ` between each two, as they are read, but with blanks.
pub fn put_tables(out: &mut String, cells: &Cells) -> Result<(), NoMemory> {
    for (index, named) in cells.list.as_slice().iter().enumerate() {
        if index > 0 {
            out.push_str("; ")?;
        }
        put_table(out, named)?;
    }
    Ok(())
}

/// Puts a table with its name.
fn put_table(out: &mut String, named: &NamedTable) -> Result<(), NoMemory> {
    out.push_str(named.name.as_str())?;
    for axis in named.table.axes.as_slice() {
        out.push_str(" @ ")?;
        put_numbers(out, axis.as_slice())?;
    }
    out.push_str(" = ")?;
    put_numbers(out, named.table.items.as_slice())
}
