use crate::{Frame, Mode};
use ess_core::{Dom, Ex, Stm};
use ess_rows::{Boxed, Row};

/// A state of the machine, between two tokens.
#[derive(Drop)]
pub struct State {
    /// The frames, the innermost last.
    pub frames: Row<Frame>,
    /// What is wanted, or what was just read.
    pub mode: Mode,
}

/// What a list of tokens is read as.
#[derive(Drop)]
pub enum Answer {
    /// An expression.
    Expression(Boxed<Ex>),
    /// A domain.
    Domain(Boxed<Dom>),
    /// The statements of a specification, in order.
    Specification(Row<Stm>),
}
