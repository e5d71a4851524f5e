//! Views of sets that keep values.
#![tactic(auto)]

pub mod laws;
