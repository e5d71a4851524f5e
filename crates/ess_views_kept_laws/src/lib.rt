//! What views offer beside those of sets and functions by argument keeps the meaning of what it stands for.
#![tactic(auto)]

pub mod laws;
