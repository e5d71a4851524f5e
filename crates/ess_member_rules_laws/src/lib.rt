//! What is written for trees of a membership, and what it says over tables.
#![tactic(auto)]

pub mod laws;
