use crate::{Dom, Repr};
use ess_rows::{Boxed, Row, Text};
use ess_semantics::words::{Fun, Op1, Op2};

/// An expression. Types decide what an index, an application and `image` are, so these carry what resolving finds: whether
/// they are Boolean, and what each step of an index is. The reader leaves false, and each step as a value.
#[derive(Drop, PartialEq)]
#[cycle(ex)]
pub enum Ex {
    /// A whole number.
    Num(i64),
    /// `true` or `false`.
    Truth(bool),
    /// A name.
    Name(Text),
    /// A prefix operator, or bars.
    One(Op1, Boxed<Ex>),
    /// An operator between two operands.
    Two(Op2, Boxed<Ex>, Boxed<Ex>),
    /// A function word: whether this call of `image` is Boolean (false for the other words), the word, its operands.
    /// A quantifier is a call over a comprehension.
    Call(bool, Fun, Row<Ex>),
    /// `e[i, ..]`: whether it is Boolean, what is indexed, and the steps.
    At(bool, Boxed<Ex>, Row<Step>),
    /// `f(x, ..)`: whether it is Boolean, what is applied, and its arguments.
    Apply(bool, Boxed<Ex>, Row<Ex>),
    /// A tuple.
    Tuple(Row<Ex>),
    /// A record, with its fields in written order.
    Rec(Row<FieldEx>),
    /// A set by its members, with repeats as written.
    Set(Row<Ex>),
    /// A multiset by its members.
    MSet(Row<Ex>),
    /// A function by its pairs.
    Function(Row<PairEx>),
    /// A relation by its tuples.
    Relation(Row<Ex>),
    /// A partition by its parts.
    Partition(Row<Ex>),
    /// A matrix by its items, with its index domain where it is written.
    Matrix(Row<Ex>, Option<Boxed<Dom>>),
    /// A comprehension: its body, and its generators and conditions.
    Comp(Boxed<Ex>, Row<Gen>),
    /// A cell: whether its domain is bool, the name of its table, and the index list.
    Cell(bool, Text, Row<Ex>),
    /// A view.
    Seen(Boxed<View>),
}

/// A step of an index.
#[derive(Drop, PartialEq)]
#[cycle(ex)]
pub enum Step {
    /// By a value. So the reader leaves each step; resolved, the step goes into a matrix.
    Value(Ex),
    /// To a component of a tuple, from 1.
    Component(u64),
    /// To a field of a record.
    Field(Text),
}

/// A field of a record literal.
#[derive(Drop, PartialEq)]
#[cycle(ex)]
pub struct FieldEx {
    pub name: Text,
    pub ex: Ex,
}

/// A pair of a function literal: the argument and the value there.
#[derive(Drop, PartialEq)]
#[cycle(ex)]
pub struct PairEx {
    pub from: Ex,
    pub to: Ex,
}

/// An item of a comprehension or quantifier.
#[derive(Drop, PartialEq)]
#[cycle(ex)]
pub enum Gen {
    /// `PATTERN : DOMAIN`
    Over(Pat, Dom),
    /// `PATTERN <- EXPRESSION`, also written with `in` in a quantifier.
    From(Pat, Ex),
    /// A condition.
    If(Ex),
}

/// What a generator binds.
#[derive(Drop, PartialEq)]
pub enum Pat {
    /// A name.
    Name(Text),
    /// The components of a tuple.
    Tuple(Row<Pat>),
}

/// A view: what the tables of these names stand for, under a representation of a domain, at an index list.
#[derive(Drop, PartialEq)]
#[cycle(ex)]
pub struct View {
    pub repr: Repr,
    pub dom: Dom,
    pub cells: Row<Text>,
    pub at: Row<Ex>,
}
