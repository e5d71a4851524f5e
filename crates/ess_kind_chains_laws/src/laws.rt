//! Laws of chains of rules that read views of sets, each the contract of a function that does nothing.

ghost use Rattle.ess_kind_chains_laws.specs.SetChains.{SetChainsKeep};

/// Chains of rules of views of sets, each at some part, with other steps between them, keep meanings, structures met and values: from a
/// tree each part of which has a value wherever its context holds, where views are those of judged domains.
pub fn set_chains_keep()
    ensures { SetChainsKeep }
{}
