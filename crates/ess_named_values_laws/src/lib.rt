//! Values of enumerated types over tables: the names of values stand as their positions.
#![tactic(auto)]

pub mod laws;
