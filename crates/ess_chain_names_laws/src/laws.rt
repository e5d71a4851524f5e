//! Laws of names along rules, each the contract of a function that does nothing.

ghost use Rattle.ess_chain_names_laws.specs.RulesKeepNames.{RulesKeepNames};
ghost use Rattle.ess_chain_names_laws.specs.SparedNames.{ChainsSpareNames};

/// Each rule brings no names but those that it takes, used, bound or of tables, and so does a rule at a part.
pub fn rules_keep_names()
    ensures { RulesKeepNames }
{}

/// Chains of rules that count the reserved names spare those that they haven't come to: a tree has none of the names that the next
/// step takes.
pub fn chains_spare_names()
    ensures { ChainsSpareNames }
{}
