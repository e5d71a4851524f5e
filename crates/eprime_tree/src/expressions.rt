use crate::{PFun, POp1, POp2};
use ess_rows::{Boxed, Row, Text};

/// An expression of a model. A name that a line of the model declares is a cell; any other is one that a generator binds.
#[derive(Drop, PartialEq)]
#[cycle(pex)]
pub enum PEx {
    /// A whole number. None below 0 is written so: `-` is an operator.
    Num(i64),
    /// `true` or `false`.
    Truth(bool),
    /// A name that a generator binds.
    Name(Text),
    /// A declared name, or `m[i, ..]`: the table's name, and the indices, of which there may be none.
    Cell(Text, Row<PEx>),
    /// An operator before, around or over one operand.
    One(POp1, Boxed<PEx>),
    /// An operator between two operands. None of the four lex signs stands here.
    Two(POp2, Boxed<PEx>, Boxed<PEx>),
    /// A word over a list.
    Fold(PFun, PList),
    /// A lex sign between two lists.
    Lex(POp2, PList, PList),
}

/// A list of a model.
#[derive(Drop, PartialEq)]
#[cycle(pex)]
pub enum PList {
    /// `[e, ..]`, of any number of items.
    Items(Row<PEx>),
    /// `[e | g, ..]`: the body, then one or more generators and conditions.
    Comp(Boxed<PEx>, Row<PGen>),
}

/// An item behind the `|` of a comprehension.
#[derive(Drop, PartialEq)]
#[cycle(pex)]
pub enum PGen {
    /// `NAME : DOMAIN`
    Over(Text, PDom),
    /// A condition.
    If(PEx),
}

/// A domain of a model.
#[derive(Drop, PartialEq)]
#[cycle(pex)]
pub enum PDom {
    /// `bool`
    Bool,
    /// `int`, or `int(RANGES)`. Without a range it holds all whole numbers.
    Int(Row<PRange>),
}

/// A range of an int domain.
#[derive(Drop, PartialEq)]
#[cycle(pex)]
pub enum PRange {
    /// One number.
    One(PEx),
    /// From a number to a number, both included. A bound that is missing doesn't bound.
    Span(Option<PEx>, Option<PEx>),
}
