//! Constraints over scalars, ranges and nested sets: which these are, and what becomes of one over tables.
#![tactic(auto)]

pub mod laws;
