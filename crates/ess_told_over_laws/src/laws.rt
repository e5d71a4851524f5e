//! Laws of trees told apart over tables, each the contract of a function that does nothing.

ghost use Rattle.ess_told_over_laws.specs.ToldOverTables.{ToldTreesKeep};

/// A tree in scope, with cells and views, means the same once its bound names are told apart from a reserved name on that isn't in scope,
/// and is kept.
pub fn told_trees_keep()
    ensures { ToldTreesKeep }
{}
