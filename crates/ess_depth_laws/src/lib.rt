//! How deep names are bound in trees.
#![tactic(auto)]

pub mod laws;
