//! Laws of what is given, by rules of all sorts but that of counted sources, each the contract of a function that does nothing.

ghost use Rattle.ess_given_rulings_laws.specs.GivenRulings.{RulingsKeepGiven};
ghost use Rattle.ess_given_rulings_laws.specs.RulingChains.{RulingChainsKeepGiven};

/// What is given in domains stays by each rule of any of these sorts, and so do comprehensions in order where order counts.
pub fn rulings_keep_given()
    ensures { RulingsKeepGiven }
{}

/// So it is at a part of a tree, and along chains of such rules with reserved names: numbers in domains, and conditions where order counts,
/// read given tables alone at the end where they do so at the beginning.
pub fn ruling_chains_keep_given()
    ensures { RulingChainsKeepGiven }
{}
