//! Comprehensions stay in order where order counts: their conditions are fixed.
#![tactic(auto)]

pub mod laws;
