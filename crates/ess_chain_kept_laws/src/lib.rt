//! Chains of rules that keep meanings.
#![tactic(auto)]

pub mod laws;
