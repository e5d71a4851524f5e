use crate::shapes::Shape;
use ess_core::{Boxed, Pair, Row, Text, Val};

/// A literal: its type and its value. They stand in boxes, so that letting a literal go is cheap to check.
#[derive(Drop)]
pub struct Literal {
    pub shape: Boxed<Shape>,
    pub val: Boxed<Val>,
}

/// The types and the values of the parts of a literal.
#[derive(Drop)]
pub struct Parts {
    pub shapes: Row<Shape>,
    pub vals: Row<Val>,
}

/// A pair of a function literal: its type, which is a tuple's, and the pair.
#[derive(Drop)]
pub struct PairLiteral {
    pub shape: Boxed<Shape>,
    pub pair: Boxed<Pair>,
}

/// The types and the pairs of a function literal.
#[derive(Drop)]
pub struct PairParts {
    pub shapes: Row<Shape>,
    pub pairs: Row<Pair>,
}

/// A field of a record literal.
#[derive(Drop)]
pub struct Field {
    pub name: Text,
    pub shape: Boxed<Shape>,
    pub val: Boxed<Val>,
}
