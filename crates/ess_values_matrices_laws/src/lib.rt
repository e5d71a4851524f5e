//! The rule of equal matrices keeps values.
#![tactic(auto)]

pub mod laws;
