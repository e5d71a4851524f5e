//! Laws of steady trees, each the contract of a function that does nothing.

ghost use Rattle.ess_steady_laws.specs.SteadyTrees.{MarkedTreesAreSteady};

/// A resolved tree with the right marks has no index that reads what it says.
pub fn marked_trees_are_steady()
    ensures { MarkedTreesAreSteady }
{}
