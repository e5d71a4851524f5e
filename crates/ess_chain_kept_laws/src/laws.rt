//! Laws of chains of rules, each the contract of a function that does nothing.

ghost use Rattle.ess_chain_kept_laws.specs.KeptChains.{ChainsKeep};

/// Each rule keeps what it rewrites, where the reserved names are counted and it has what it counts on beside new names; so do chains of
/// rules, and those of rules that count on new names alone in every env.
pub fn chains_keep()
    ensures { ChainsKeep }
{}
