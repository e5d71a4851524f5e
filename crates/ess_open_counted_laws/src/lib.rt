//! What rules of openings count on, from values.
#![tactic(auto)]

pub mod laws;
