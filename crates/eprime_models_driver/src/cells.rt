use crate::refusals::{put_named, put_read_no};
use crate::tables::put_tables;
use eprime_read_cells::{CellsNo, read_cells};
use eprime_tree::{PDecl, PModel, print_cells};
use ess_core::Cells;
use ess_rows::{NoMemory, Row};
use std::alloc::Global;

/// Puts the tables that a text of cells is for the finds of a model, and these printed, or why there are none.
pub fn put_read(
    alloc: Global,
    out: &mut String,
    model: &PModel,
    givens: &Cells,
    text: &str,
) -> Result<(), NoMemory> {
    match read_cells(alloc, text.as_bytes(), &model.finds, &model.givens, givens) {
        Ok(cells) => put_both(alloc, out, &cells, &model.finds),
        Err(why) => put_cells_no(out, why),
    }
}

/// Puts tables, and these printed.
fn put_both(
    alloc: Global,
    out: &mut String,
    cells: &Cells,
    decls: &Row<PDecl>,
) -> Result<(), NoMemory> {
    put_tables(out, cells)?;
    out.push_str(" | ")?;
    put_printed(alloc, out, cells, decls)
}

/// Puts the text of tables.
pub fn put_printed(
    alloc: Global,
    out: &mut String,
    cells: &Cells,
    decls: &Row<PDecl>,
) -> Result<(), NoMemory> {
    let bytes = print_cells(alloc, cells, decls)?;
    let text = str::from_utf8(bytes.as_slice()).unwrap_or("no text");
    Ok(out.push_str(text)?)
}

/// Puts why there are no tables.
fn put_cells_no(out: &mut String, why: CellsNo) -> Result<(), NoMemory> {
    match why {
        CellsNo::Read(why) => put_read_no(out, why),
        CellsNo::Missing(name) => put_named(out, "Missing ", name),
        CellsNo::Extra(name) => put_named(out, "Extra ", name),
        CellsNo::OutOfDomain(name) => put_named(out, "OutOfDomain ", name),
        CellsNo::Big => Ok(out.push_str("big")?),
        CellsNo::NoMemory => Err(NoMemory),
    }
}
