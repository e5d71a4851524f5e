//! Laws of chains of rules, each the contract of a function that does nothing.

ghost use Rattle.ess_more_valued_laws.specs.MoreChains.{MoreChainsKeep};

/// Chains of 47 rules keep meaning, structures met and values, from a tree with values on that meets its structures: of no step anything is
/// asked of values, but of names, types and forms.
pub fn more_chains_keep()
    ensures { MoreChainsKeep }
{}
