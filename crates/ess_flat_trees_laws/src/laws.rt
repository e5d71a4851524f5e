//! Laws of flat total trees on the way to a rule, each the contract of a function that does nothing.

ghost use Rattle.ess_flat_trees_laws.specs.Laws.{FlatTreesStay};

/// A flat total tree stays as it is, but that cells stand in the place of names.
pub fn flat_trees_stay()
    ensures { FlatTreesStay }
{}
