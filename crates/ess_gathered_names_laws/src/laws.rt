//! A law of gathered conditions, the contract of a function that does nothing.

ghost use Rattle.ess_gathered_names_laws.specs.GatheredNames.{GatheringKeepsNames};

/// The rule that gathers conditions makes a tree with no other names, used, bound or of tables.
pub fn gathering_keeps_names()
    ensures { GatheringKeepsNames }
{}
