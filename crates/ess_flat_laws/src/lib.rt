//! Flat total trees: which these are, and that no rule of rewriting fires in them.
#![tactic(auto)]

pub mod laws;
