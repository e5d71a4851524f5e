//! Types and marks of rules of openings.
#![tactic(auto)]

pub mod laws;
