//! Types put back part by part, and the forms of values beside positions.
#![tactic(auto)]

pub mod laws;
