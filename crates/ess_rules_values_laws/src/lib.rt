//! Rules that keep values.
#![tactic(auto)]

pub mod laws;
