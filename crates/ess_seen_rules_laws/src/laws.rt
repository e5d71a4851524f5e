//! The law of rules that fire in trees over views of sets, the contract of a function that does nothing.

ghost use Rattle.ess_seen_rules_laws.specs.Laws.{FewRulesFire};

/// Of all rules only a few fire in trees over views of sets.
pub fn few_rules_fire()
    ensures { FewRulesFire }
{}
