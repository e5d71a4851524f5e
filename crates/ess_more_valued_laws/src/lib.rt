//! Longer chains of rules from a tree with values on.
#![tactic(auto)]

pub mod laws;
