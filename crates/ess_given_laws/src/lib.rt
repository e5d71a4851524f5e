//! What is given in domains and conditions stays.
#![tactic(auto)]

pub mod laws;
