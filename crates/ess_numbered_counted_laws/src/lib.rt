//! What rules of counted lists count on, from values.
#![tactic(auto)]

pub mod laws;
