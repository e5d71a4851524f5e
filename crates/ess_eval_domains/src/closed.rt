use ess_core::{Boxed, Key, Row, Text};

/// A range with its bounds, where it has them.
#[derive(Clone, Copy)]
pub struct Span {
    pub low: Option<i64>,
    pub high: Option<i64>,
}

/// An attribute of a domain.
#[derive(Clone, Copy)]
pub enum Attribute {
    /// One with its number.
    Numbered(Key, i64),
    /// One without a number.
    Flagged(Key),
}

/// A domain in which each bound, each attribute value and each size is a number.
#[derive(Drop)]
#[cycle(closed)]
pub enum Closed {
    /// Truth values.
    Bool,
    /// Whole numbers. Without a range it holds all of them.
    Int(Row<Span>),
    /// An enumerated or unnamed type, and how many values it has.
    Named(Text, u64),
    /// Tuples, by the domains of their components.
    Tuple(Row<Closed>),
    /// Records, by their fields in the order of the bytes of their names.
    Rec(Row<FieldClosed>),
    /// Matrices, by the domains of their indices and that of their items.
    Matrix(Row<Closed>, Boxed<Closed>),
    /// Sets of members of a domain.
    Set(Row<Attribute>, Boxed<Closed>),
    /// Multisets of members of a domain.
    MSet(Row<Attribute>, Boxed<Closed>),
    /// Functions, by the domain of their arguments and that of their values.
    Function(Row<Attribute>, Boxed<Closed>, Boxed<Closed>),
    /// Relations, by the domains of their components.
    Relation(Row<Attribute>, Row<Closed>),
    /// Partitions of members of a domain.
    Partition(Row<Attribute>, Boxed<Closed>),
}

/// A field of a record, with its domain.
#[derive(Drop)]
#[cycle(closed)]
pub struct FieldClosed {
    pub name: Text,
    pub domain: Closed,
}
