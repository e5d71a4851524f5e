//! Laws of what is given in specifications, each the contract of a function that does nothing.

ghost use Rattle.ess_given_judged_laws.specs.ShownGiven.{ShownTreesAreGiven};
ghost use Rattle.ess_given_judged_laws.specs.JudgedGiven.{JudgedTreesAreGiven};
ghost use Rattle.ess_given_judged_laws.specs.SpecificationsGiven.{SpecificationsGiven};

/// What is given in a tree is given once views, cells and positions stand in the place of names.
pub fn shown_trees_are_given()
    ensures { ShownTreesAreGiven }
{}

/// A tree that is judged in a scope has, resolved, fixed numbers in its domains, each at its place.
pub fn judged_trees_are_given()
    ensures { JudgedTreesAreGiven }
{}

/// From a judged tree of a specification, shown over its views, each chain of rules to a refined tree in which no condition can leave keeps
/// what is given in conditions.
pub fn specifications_are_given()
    ensures { SpecificationsGiven }
{}
