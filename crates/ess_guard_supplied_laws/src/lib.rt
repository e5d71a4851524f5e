//! Where the conditions of a judged term say whether it has a value.
#![tactic(auto)]

pub mod laws;
