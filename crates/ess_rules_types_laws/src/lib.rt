//! Each rule keeps types and marks where terms stand for names.
#![tactic(auto)]

pub mod laws;
