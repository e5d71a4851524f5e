//! What is written for bare trees, and what it says over declared tables.
#![tactic(auto)]

pub mod laws;
