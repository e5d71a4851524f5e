//! What more rules count on, from values.
#![tactic(auto)]

pub mod laws;
