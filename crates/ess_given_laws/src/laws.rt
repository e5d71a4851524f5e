//! Laws of what is given, each the contract of a function that does nothing.

ghost use Rattle.ess_given_laws.specs.GivenEnds.{GivenEnds, MoreNamesMayJoin};
ghost use Rattle.ess_given_laws.specs.GivenStays.{GivenStays};

/// What is given in domains stays: each rule keeps it at its root, a part that keeps it keeps that of the whole, and so do any number of rules.
pub fn given_stays()
    ensures { GivenStays }
{}

/// So the domains of generators read given tables alone; and in a refined fold, `min` or `max` from which no condition can leave, no
/// condition reads a table.
pub fn given_ends()
    ensures { GivenEnds }
{}

/// More names may belong to those that are given, as long as the tree has none of them: such are the reserved names that a rule takes.
pub fn more_names_may_join()
    ensures { MoreNamesMayJoin }
{}
