//! Trees over tables whose bound names are told apart.
#![tactic(auto)]

pub mod laws;
