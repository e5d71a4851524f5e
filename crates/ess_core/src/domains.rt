use crate::Ex;
use ess_rows::{Boxed, Row, Text};
use ess_semantics::words::Key;

/// A domain: which values a variable may have.
#[derive(Drop, PartialEq)]
#[cycle(ex)]
pub enum Dom {
    /// `bool`
    Bool,
    /// `int`, or `int(RANGES)`. Without a range it holds all whole numbers.
    Int(Row<Range>),
    /// The name of an enumerated or unnamed type, or of a domain that a letting names.
    Name(Text),
    /// Tuples, by the domains of their components.
    Tuple(Row<Dom>),
    /// Records, by their fields in the order of the bytes of their names.
    Rec(Row<FieldDom>),
    /// `matrix indexed by [AXES] of ITEM`
    Matrix(Row<Dom>, Boxed<Dom>),
    /// `set (ATTRIBUTES) of MEMBER`
    Set(Row<Attr>, Boxed<Dom>),
    /// `mset (ATTRIBUTES) of MEMBER`
    MSet(Row<Attr>, Boxed<Dom>),
    /// `function (ATTRIBUTES) ARGUMENT --> VALUE`
    Function(Row<Attr>, Boxed<Dom>, Boxed<Dom>),
    /// `relation (ATTRIBUTES) of (FIRST * SECOND * ..)`
    Relation(Row<Attr>, Row<Dom>),
    /// `partition (ATTRIBUTES) from MEMBER`
    Partition(Row<Attr>, Boxed<Dom>),
}

/// A field of a record, with its domain.
#[derive(Drop, PartialEq)]
#[cycle(ex)]
pub struct FieldDom {
    pub name: Text,
    pub dom: Dom,
}

/// A range of an int domain.
#[derive(Drop, PartialEq)]
#[cycle(ex)]
pub enum Range {
    /// One number.
    One(Ex),
    /// From a number to a number, both included. A bound that is missing doesn't bound.
    Span(Option<Ex>, Option<Ex>),
}

/// An attribute of a domain, with its number where it has one.
#[derive(Drop, PartialEq)]
#[cycle(ex)]
pub struct Attr {
    pub key: Key,
    pub value: Option<Ex>,
}
