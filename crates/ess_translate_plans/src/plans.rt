//! Plans.
use ess_core::{Boxed, Dom, Repr, Row, Text};

/// The givens, or the finds.
#[derive(Clone, Copy, Debug, PartialEq, Eq)]
pub enum Side {
    /// What a parameter gives.
    Givens,
    /// What a solution finds.
    Finds,
}

/// The name of a table, with its number of axes.
#[derive(Drop, PartialEq)]
pub struct TableName {
    pub name: Text,
    pub axes: usize,
}

/// A given or find with one of its representations, its domain with lettings put in and resolved, and the names of its tables.
#[derive(Drop)]
pub struct ValuePlan {
    pub side: Side,
    pub name: Text,
    pub tree: Boxed<Repr>,
    pub dom: Boxed<Dom>,
    pub tables: Row<TableName>,
}

/// How a name of a header is kept in tables.
#[derive(Drop)]
pub enum Plan {
    /// A given enumerated type, with the name of the cell for its number of values.
    Size(Text, Text),
    /// A given or find with one of its representations.
    Value(Boxed<ValuePlan>),
}
