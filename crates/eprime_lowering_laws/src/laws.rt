//! Laws of trees that are expressions of models, each the contract of a function that does nothing.
ghost use Rattle.eprime_lowering_laws.specs.Laws.{RefinedTreesAreLowerable, LowerableTreesAreRefined};

/// A refined tree is an expression of a model where each operator has as many operands as it takes, each range its bounds, no
/// generator runs over a named type, and each cell is a truth value where its table has truth values.
pub fn refined_trees_are_lowerable()
    ensures { RefinedTreesAreLowerable }
{}

/// An expression of a model is a refined tree of that kind, and no other is.
pub fn lowerable_trees_are_refined()
    ensures { LowerableTreesAreRefined }
{}
