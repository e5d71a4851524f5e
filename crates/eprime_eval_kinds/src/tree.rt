use eprime_tree::{PFun, POp1, POp2};
use ess_rows::{Boxed, Row, Text};

/// The kind of an expression.
#[derive(Clone, Copy, Debug, PartialEq, Eq)]
pub enum Kind {
    /// That of what has nothing, and fits everywhere.
    Any,
    /// Truth values.
    Bool,
    /// Whole numbers.
    Int,
}

/// An expression of a model as it is evaluated.
#[derive(Drop, PartialEq)]
#[cycle(kex)]
pub enum KEx {
    /// A whole number.
    Num(i64),
    /// `true` or `false`.
    Truth(bool),
    /// What has nothing: it stands for a name or table that isn't there, and for a number where a part is of another kind.
    Nothing,
    /// A name that a generator binds.
    Name(Text),
    /// A cell: whether it is a truth value, the number of the table's declaration, counted from 0, and the indices.
    Cell(bool, usize, Row<KEx>),
    /// An operator before, around or over one operand.
    One(POp1, Boxed<KEx>),
    /// An operator between two operands.
    Two(POp2, Boxed<KEx>, Boxed<KEx>),
    /// A word over a list.
    Fold(PFun, Boxed<KList>),
    /// A lex sign between two lists.
    Lex(POp2, Boxed<KList>, Boxed<KList>),
}

/// A list of a model as it is evaluated.
#[derive(Drop, PartialEq)]
#[cycle(kex)]
pub enum KList {
    /// `[e, ..]`, of any number of items.
    Items(Row<KEx>),
    /// `[e | g, ..]`: the body, then the generators and conditions.
    Comp(Boxed<KEx>, Row<KGen>),
}

/// An item behind the `|` of a comprehension.
#[derive(Drop, PartialEq)]
#[cycle(kex)]
pub enum KGen {
    /// `NAME : DOMAIN`
    Over(Text, Boxed<KDom>),
    /// A condition.
    If(Boxed<KEx>),
}

/// A domain of a model as it is evaluated.
#[derive(Drop, PartialEq)]
#[cycle(kex)]
pub enum KDom {
    /// `bool`
    Bool,
    /// `int`, or `int(RANGES)`. Without a range it holds all whole numbers.
    Int(Row<KRange>),
}

/// A range of an int domain. A bound that isn't a number is one that has nothing.
#[derive(Drop, PartialEq)]
#[cycle(kex)]
pub enum KRange {
    /// One number.
    One(Boxed<KEx>),
    /// From a number to a number, both included.
    Between(Boxed<KEx>, Boxed<KEx>),
    /// From a number on.
    From(Boxed<KEx>),
    /// Up to a number.
    UpTo(Boxed<KEx>),
}
