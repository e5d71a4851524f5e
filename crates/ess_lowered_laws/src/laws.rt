//! Laws of what is written where tables are declared, each the contract of a function that does nothing.

ghost use Rattle.ess_lowered_laws.specs.Laws.{WrittenTreesStayLowerable, EndedTreesAreLowered, BareTreesAreLowered, FlatTreesAreLowered, SeenTreesAreLowered};

/// What is written for an expression of a model is one.
pub fn written_trees_stay_lowerable()
    ensures { WrittenTreesStayLowerable }
{}

/// So is what is written for a tree that rules end in, where its ranges have their bounds and earlier lines declare its tables with their
/// marks.
pub fn ended_trees_are_lowered()
    ensures { EndedTreesAreLowered }
{}

/// So it is with each bare tree.
pub fn bare_trees_are_lowered()
    ensures { BareTreesAreLowered }
{}

/// So it is with each flat tree.
pub fn flat_trees_are_lowered()
    ensures { FlatTreesAreLowered }
{}

/// So it is with each refined tree over views of nested sets.
pub fn seen_trees_are_lowered()
    ensures { SeenTreesAreLowered }
{}
