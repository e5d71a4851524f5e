//! What stands over tables for specifications of sets of atoms.
#![tactic(auto)]

pub mod laws;
