use ess_rows::{Row, Text};

/// A value of a variable, in one form each: the lists of sets, multisets, functions, relations and partitions rise in the
/// order of values.
#[derive(Drop, PartialEq)]
#[cycle(val)]
pub enum Val {
    /// A whole number.
    Num(i64),
    /// A truth value.
    Truth(bool),
    /// A value of an enumerated or unnamed type: the type's name, and the position from 1.
    Item(Text, u64),
    /// A tuple, by its components.
    Tuple(Row<Val>),
    /// A record, by its fields in the order of the bytes of their names.
    Rec(Row<FieldVal>),
    /// A matrix: the members of its index domain, rising, and the items.
    Matrix(Row<Val>, Row<Val>),
    /// A set: strictly rising.
    Set(Row<Val>),
    /// A multiset: rising.
    MSet(Row<Val>),
    /// A function: its pairs, by strictly rising arguments.
    Function(Row<Pair>),
    /// A relation: its tuples, strictly rising.
    Relation(Row<Val>),
    /// A partition: its parts as sets, strictly rising.
    Partition(Row<Val>),
}

/// A field of a record, with its value.
#[derive(Drop, PartialEq)]
#[cycle(val)]
pub struct FieldVal {
    pub name: Text,
    pub val: Val,
}

/// A pair of a function: an argument and the value there.
#[derive(Drop, PartialEq)]
#[cycle(val)]
pub struct Pair {
    pub from: Val,
    pub to: Val,
}
