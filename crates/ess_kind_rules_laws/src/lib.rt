//! The rules of kinds of representations, as one list of pure functions: definitions with worked examples.
#![tactic(auto)]
