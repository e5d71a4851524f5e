//! What rules count on, from values.
#![tactic(auto)]

pub mod laws;
