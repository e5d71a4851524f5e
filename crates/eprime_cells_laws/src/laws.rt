//! Laws of printed tables, each the contract of a function that does nothing.

ghost use Rattle.eprime_cells_laws.specs.Laws.{PrintedTablesAreRead};

/// The text of the declared tables is derived by the grammar's rules as a text of cells, no word of it stands outside the subset,
/// and what it stands for under the declarations is these tables.
pub fn printed_tables_are_read()
    ensures { PrintedTablesAreRead }
{}
