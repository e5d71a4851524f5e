//! Laws of chains of rules, each the contract of a function that does nothing.

ghost use Rattle.ess_valued_chains_laws.specs.ValuedChains.{ValuedChainsKeep};

/// Chains of rules that keep values and count on nothing but new names, types and values keep meaning and values, from a tree with values on:
/// of no step anything is asked of values.
pub fn valued_chains_keep()
    ensures { ValuedChainsKeep }
{}
