//! A law of the names of ordered comprehensions, the contract of a function that does nothing.

ghost use Rattle.ess_ordered_names_laws.specs.OrderedNames.{OrderedRulesKeepNames};

/// The rules of comprehensions whose items have an order bring no names but those that they take, used, bound or of tables; so a tree
/// spares behind them the reserved names that they haven't come to.
pub fn ordered_rules_keep_names()
    ensures { OrderedRulesKeepNames }
{}
