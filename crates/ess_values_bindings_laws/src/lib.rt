//! Rules over bindings that keep values.
#![tactic(auto)]

pub mod laws;
