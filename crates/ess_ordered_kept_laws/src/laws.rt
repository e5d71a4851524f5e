//! A law of ordered comprehensions, the contract of a function that does nothing.

ghost use Rattle.ess_ordered_kept_laws.specs.OrderedAsks.{OrderedRulesKeep};

/// Each rule of comprehensions whose items have an order keeps what it rewrites, where it has what it counts on.
pub fn ordered_rules_keep()
    ensures { OrderedRulesKeep }
{}
