use crate::{Dom, Val};
use ess_rows::{Row, Text};

/// A table that a representation declares: its name, the domains of its axes, and that of its cells.
#[derive(Drop, PartialEq)]
pub struct CellDecl {
    pub name: Text,
    pub axes: Row<Dom>,
    pub cell: Dom,
}

/// A table of whole numbers: the members of each axis, rising, and the items row by row. A truth value is 0 or 1, a value
/// of an enumerated or unnamed type is its position.
#[derive(Drop, PartialEq)]
pub struct Table {
    pub axes: Row<Row<i64>>,
    pub items: Row<i64>,
}

/// A table with its name.
#[derive(Drop, PartialEq)]
pub struct NamedTable {
    pub name: Text,
    pub table: Table,
}

/// Tables by name, in order of declaration.
#[derive(Drop, PartialEq)]
pub struct Cells {
    pub list: Row<NamedTable>,
}

/// The types and the values of names. Each count is at most 2^63 - 1.
#[derive(Drop, PartialEq)]
pub struct Env {
    pub types: Row<TypeEntry>,
    pub vals: Row<Binding>,
}

/// An enumerated or unnamed type: how many values it has, and their names; an unnamed type has no names.
#[derive(Drop, PartialEq)]
pub struct TypeEntry {
    pub name: Text,
    pub count: u64,
    pub names: Row<Text>,
}

/// A name with its value.
#[derive(Drop, PartialEq)]
pub struct Binding {
    pub name: Text,
    pub val: Val,
}
