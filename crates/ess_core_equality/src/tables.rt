ghost use Rattle.std.specs.Prelude.{◌≡◌, ◌↔◌, IsTrue};

use ess_core::{Binding, CellDecl, Cells, Env, NamedTable, Table, TypeEntry};

/// Whether two declarations of tables are equal.
pub fn same_cell_decl(decl: &CellDecl, other: &CellDecl) -> bool
    ensures { IsTrue result ↔ (decl.now ≡ other.now) }
{
    *decl == *other
}

/// Whether two tables are equal.
pub fn same_table(table: &Table, other: &Table) -> bool
    ensures { IsTrue result ↔ (table.now ≡ other.now) }
{
    *table == *other
}

/// Whether two named tables are equal.
pub fn same_named_table(table: &NamedTable, other: &NamedTable) -> bool
    ensures { IsTrue result ↔ (table.now ≡ other.now) }
{
    *table == *other
}

/// Whether two lists of named tables are equal.
pub fn same_cells(cells: &Cells, other: &Cells) -> bool
    ensures { IsTrue result ↔ (cells.now ≡ other.now) }
{
    *cells == *other
}

/// Whether two enumerated or unnamed types are equal.
pub fn same_type_entry(entry: &TypeEntry, other: &TypeEntry) -> bool
    ensures { IsTrue result ↔ (entry.now ≡ other.now) }
{
    *entry == *other
}

/// Whether two names with their values are equal.
pub fn same_binding(binding: &Binding, other: &Binding) -> bool
    ensures { IsTrue result ↔ (binding.now ≡ other.now) }
{
    *binding == *other
}

/// Whether two environments are equal.
pub fn same_env(env: &Env, other: &Env) -> bool
    ensures { IsTrue result ↔ (env.now ≡ other.now) }
{
    *env == *other
}
