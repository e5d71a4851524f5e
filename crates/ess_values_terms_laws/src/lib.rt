//! Rules of comparisons, membership, sizes and lists that keep values.
#![tactic(auto)]

pub mod laws;
