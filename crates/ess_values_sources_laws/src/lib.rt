//! Rules over sources that keep values.
#![tactic(auto)]

pub mod laws;
