//! Laws of bare trees, each the contract of a function that does nothing.

ghost use Rattle.ess_bare_laws.specs.Laws.{PartsOfBareTrees, FewRulesFire, FiredRulesKeep, BareTreesAreScalars};

/// A part of a bare tree is bare, and may be replaced by another bare tree of the same mark.
pub fn parts_of_bare_trees()
    ensures { PartsOfBareTrees }
{}

/// Of all rules only four fire at the root of a bare tree.
pub fn few_rules_fire()
    ensures { FewRulesFire }
{}

/// What these make of a bare tree is bare, means the same and has values.
pub fn fired_rules_keep()
    ensures { FiredRulesKeep }
{}

/// Bare trees are refined trees of scalars.
pub fn bare_trees_are_scalars()
    ensures { BareTreesAreScalars }
{}
