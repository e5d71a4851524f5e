use crate::words::{Ends, Mark, Op};
use ess_core::{Pat, Repr};
use ess_rows::{Boxed, Row, Text};

/// An expression.
#[derive(Drop)]
#[cycle(node)]
pub enum Node {
    /// A whole number.
    Number(i64),
    /// A truth value.
    Truth(bool),
    /// A name.
    Name(Text),
    /// An operator with its operands: whether it is Boolean comes first.
    Op(bool, Op, Row<Node>),
    /// A matrix by its items, over an index domain.
    MatrixOn(Row<Node>, Boxed<NodeDom>),
    /// A comprehension: its body, and its generators and conditions.
    Comp(Boxed<Node>, Row<Gen>),
    /// A cell: whether it is a truth value, the name of its table, and the index list.
    Cell(bool, Text, Row<Node>),
    /// A view.
    Seen(Boxed<Seen>),
}

/// A generator or condition of a comprehension.
#[derive(Drop)]
#[cycle(node)]
pub enum Gen {
    /// A pattern over a domain.
    Over(Pat, Boxed<NodeDom>),
    /// A pattern over a value.
    From(Pat, Boxed<Node>),
    /// A condition.
    If(Boxed<Node>),
}

/// A domain. The bounds of all ranges, or the numbers of all attributes, stand in one row.
#[derive(Drop)]
#[cycle(node)]
pub enum NodeDom {
    /// `bool`
    Bool,
    /// `int`, with the forms of its ranges and their bounds.
    Int(Row<Ends>, Row<Node>),
    /// The name of a type.
    Name(Text),
    /// Tuples, by the domains of their components.
    Tuple(Row<NodeDom>),
    /// Records, by their fields in the order of the bytes of their names.
    Record(Row<Text>, Row<NodeDom>),
    /// Matrices, by their index domains and that of their items.
    Matrix(Row<NodeDom>, Boxed<NodeDom>),
    /// Sets, by their attributes with the numbers of these, and the domain of their members.
    Set(Row<Mark>, Row<Node>, Boxed<NodeDom>),
    /// Multisets.
    MSet(Row<Mark>, Row<Node>, Boxed<NodeDom>),
    /// Functions, from and to a domain.
    Function(Row<Mark>, Row<Node>, Boxed<NodeDom>, Boxed<NodeDom>),
    /// Relations, by the domains of the components.
    Relation(Row<Mark>, Row<Node>, Row<NodeDom>),
    /// Partitions of the members of a domain.
    Partition(Row<Mark>, Row<Node>, Boxed<NodeDom>),
}

/// A view: what the tables of these names stand for, under a representation of a domain, at an index list.
#[derive(Drop)]
#[cycle(node)]
pub struct Seen {
    pub repr: Repr,
    pub dom: Boxed<NodeDom>,
    pub cells: Row<Text>,
    pub at: Row<Node>,
}
