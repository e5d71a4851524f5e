//! The parts of a model.

/// A part of a model.
#[derive(Clone, Copy, Debug, PartialEq, Eq)]
pub enum Part {
    /// The declarations of what is given.
    Givens,
    /// The declarations of what is to be found.
    Finds,
    /// The rules that the tables of finds are canonical.
    Structures,
    /// The rules that further views of a find stand for what the first one does.
    Channels,
    /// The objective, or the rule that it has a value.
    Objective,
    /// The constraints.
    Constraints,
}
