//! Laws of gathered conditions, each the contract of a function that does nothing.

ghost use Rattle.ess_gathered_laws.specs.GatheredConditions.{ConditionsGather};

/// Several conditions that read cells become one behind the generators of `min` or `max`, and the tree keeps its meaning where the
/// comprehension has a value and what bounds read is there. What is made is refined, and has no other such condition.
pub fn conditions_gather()
    ensures { ConditionsGather }
{}
