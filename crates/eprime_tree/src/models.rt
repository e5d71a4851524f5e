use crate::{PDom, PEx};
use ess_rows::{Row, Text};

/// A declared name: the domains of its axes, of which there may be none, and that of its cells.
#[derive(Drop, PartialEq)]
pub struct PDecl {
    pub name: Text,
    pub axes: Row<PDom>,
    pub cell: PDom,
}

/// The objective of a model.
#[derive(Drop, PartialEq)]
pub enum PGoal {
    /// None.
    Free,
    /// `minimising e`
    Minimise(PEx),
    /// `maximising e`
    Maximise(PEx),
}

/// A model.
#[derive(Drop, PartialEq)]
pub struct PModel {
    /// The lines of its header, each without the `$ ` at its begin.
    pub head: Row<Text>,
    /// What is given, in order.
    pub givens: Row<PDecl>,
    /// What is to be found, in order.
    pub finds: Row<PDecl>,
    /// The objective.
    pub goal: PGoal,
    /// The constraints, in order.
    pub rules: Row<PEx>,
}
