//! Chains of rules that read views of sets.
#![tactic(auto)]

pub mod laws;
