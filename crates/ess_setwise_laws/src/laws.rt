//! The laws of constraints and objectives over scalars, ranges and nested sets, each the contract of a function that does nothing.

ghost use Rattle.ess_setwise_laws.specs.Laws.{SetwiseTreesAreSeen};
ghost use Rattle.ess_setwise_laws.specs.Objectives.{SetwiseNumbersAreThere};

/// Over tables a constraint over scalars, ranges and nested sets is a tree over views that means the same, and has values.
pub fn setwise_trees_are_seen()
    ensures { SetwiseTreesAreSeen }
{}

/// Over tables an objective over scalars, ranges and nested sets is the tree that it is in a constraint, and a number.
pub fn setwise_numbers_are_there()
    ensures { SetwiseNumbersAreThere }
{}
