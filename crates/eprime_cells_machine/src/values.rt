use ess_rows::{Boxed, Row, Text};

/// A whole number as it is written. `-0` isn't written as `0` is.
#[derive(Clone, Copy, Debug, PartialEq, Eq)]
pub enum Number {
    /// Without a sign.
    Plain(i64),
    /// Behind `-`: the number itself, which is at most 0.
    Minus(i64),
}

/// A range of an index domain.
#[derive(Clone, Copy, Debug, PartialEq, Eq)]
pub enum CellRange {
    /// One number.
    One(Number),
    /// From a number to a number, both included.
    Span(Number, Number),
}

/// A value in a text of cells.
#[derive(Drop)]
#[cycle(cell_value)]
pub enum CellValue {
    Number(Number),
    /// `true` or `false`.
    Truth(bool),
    List(Boxed<CellList>),
}

/// A list in a text of cells.
#[derive(Drop)]
#[cycle(cell_value)]
pub struct CellList {
    pub items: Row<CellValue>,
    /// The ranges of its index domain, where one is written: one or more.
    pub ranges: Option<Row<CellRange>>,
}

/// `letting NAME be VALUE`
#[derive(Drop)]
pub struct CellLetting {
    pub name: Text,
    pub value: CellValue,
}
