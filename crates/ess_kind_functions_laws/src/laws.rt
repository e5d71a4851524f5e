//! Laws of steps of rules that read views of functions, each the contract of a function that does nothing.

ghost use Rattle.ess_kind_functions_laws.specs.FunctionsAtHand.{FunctionRulesHaveWhatTheyAsk};

/// Of a typed tree each part of which has a value, where views are those of judged domains, what is counted on follows by the rules of flags,
/// of results behind flags and of sizes of functions whose arguments are atoms; so they keep what they rewrite.
pub fn function_rules_have_what_they_ask()
    ensures { FunctionRulesHaveWhatTheyAsk }
{}
