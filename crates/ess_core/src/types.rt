use ess_rows::{Boxed, Row, Text};

/// The type of an expression or of a value. Two types agree where they are equal up to `Any` on either side.
#[derive(Drop, PartialEq)]
#[cycle(ty)]
pub enum Ty {
    /// The type of the members of an empty literal.
    Any,
    /// Truth values.
    Bool,
    /// Whole numbers.
    Int,
    /// An enumerated or unnamed type.
    Named(Text),
    /// Tuples, by the types of their components.
    Tuple(Row<Ty>),
    /// Records, by their fields in the order of the bytes of their names.
    Rec(Row<FieldTy>),
    /// Matrices: the type of the index and that of the items. A matrix of several indices is nested.
    Matrix(Boxed<Ty>, Boxed<Ty>),
    /// Sets of members of a type.
    Set(Boxed<Ty>),
    /// Multisets of members of a type.
    MSet(Boxed<Ty>),
    /// Functions: the type of the arguments and that of the values.
    Function(Boxed<Ty>, Boxed<Ty>),
    /// Relations, by the types of their components.
    Relation(Row<Ty>),
    /// Partitions of members of a type.
    Partition(Boxed<Ty>),
}

/// A field of a record, with its type.
#[derive(Drop, PartialEq)]
#[cycle(ty)]
pub struct FieldTy {
    pub name: Text,
    pub ty: Ty,
}
