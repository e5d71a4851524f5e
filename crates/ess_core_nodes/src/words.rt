use ess_core::{Fun, Key, Op1, Op2};
use ess_rows::{Row, Text};

/// A step of an index.
#[derive(Drop)]
pub enum Step {
    /// Into a matrix, by a value.
    Value,
    /// To a component of a tuple, from 1.
    Component(u64),
    /// To a field of a record.
    Field(Text),
}

/// What stands at an operator's node.
#[derive(Drop)]
pub enum Op {
    /// A prefix operator, or bars.
    Unary(Op1),
    /// An operator between two operands.
    Binary(Op2),
    /// A function word.
    Word(Fun),
    /// An index: the operands are what is indexed and the value of each step that is by a value.
    Index(Row<Step>),
    /// An application: the operands are the function or relation and its arguments.
    Apply,
    /// A tuple.
    Tuple,
    /// A set by its members.
    Set,
    /// A multiset by its members.
    MSet,
    /// A function by its pairs, as tuples.
    Function,
    /// A relation by its tuples.
    Relation,
    /// A partition by its parts.
    Partition,
    /// A matrix by its items, numbered from 1.
    Matrix,
    /// A record, with its fields in written order.
    Record(Row<Text>),
}

/// The form of a range.
#[derive(Clone, Copy, Debug, PartialEq, Eq)]
pub enum Ends {
    /// One value.
    One,
    /// Both bounds.
    Both,
    /// A lower bound alone.
    Low,
    /// An upper bound alone.
    High,
}

/// An attribute of a domain.
#[derive(Clone, Copy, Debug, PartialEq, Eq)]
pub enum Mark {
    /// One without a number.
    Flag(Key),
    /// One with a number.
    Valued(Key),
}
