//! Laws of rules used where the first source is told apart anew, each the contract of a function that does nothing.

ghost use Rattle.ess_chain_anew_laws.specs.RenewedChains.{RenewedChainsKeep};
ghost use Rattle.ess_chain_anew_laws.specs.RenewedRules.{RenewedRulesKeep};

/// A rule that puts terms of the first source for its name, used where the bound names of the source are told apart anew, keeps what it
/// rewrites where it has there what it counts on; and it spares the reserved names that it hasn't come to.
pub fn renewed_rules_keep()
    ensures { RenewedRulesKeep }
{}

/// So do chains of such rules at parts, each with what it counts on beside new names wherever the context of its part holds.
pub fn renewed_chains_keep()
    ensures { RenewedChainsKeep }
{}
