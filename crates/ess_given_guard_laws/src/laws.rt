//! Laws of what is given where terms get conditions, each the contract of a function that does nothing.

ghost use Rattle.ess_given_guard_laws.specs.GuardKeepsGiven.{GuardKeepsGiven};

/// What is given in a tree is given in the tree whose Booleans stand under conditions, at its place, and comprehensions are in order there.
pub fn guard_keeps_given()
    ensures { GuardKeepsGiven }
{}
