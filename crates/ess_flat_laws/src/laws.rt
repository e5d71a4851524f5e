//! Laws of flat total trees, each the contract of a function that does nothing.

ghost use Rattle.ess_flat_laws.specs.Laws.{NoRuleFires};

/// No rule fires anywhere in a flat total tree over cells.
pub fn no_rule_fires()
    ensures { NoRuleFires }
{}
