//! A law of the names of comprehensions over counted sources, the contract of a function that does nothing.

ghost use Rattle.ess_numbered_names_laws.specs.NumberedNames.{NumberRulesKeepNames};

/// The rules of comprehensions over sources whose items are counted bring no names but those that they take, used or bound; so a tree
/// spares behind them the reserved names that they haven't come to.
pub fn number_rules_keep_names()
    ensures { NumberRulesKeepNames }
{}
