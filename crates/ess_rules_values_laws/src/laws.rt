//! Laws of rules and values, each the contract of a function that does nothing.

ghost use Rattle.ess_rules_values_laws.specs.RulesKeepValues.{RulesKeepValues};

/// 22 rules keep at their root that each part of the tree has a value wherever its context holds, but for numbers in natural places, where
/// they keep the meaning and the name that they bind is new.
pub fn rules_keep_values()
    ensures { RulesKeepValues }
{}
