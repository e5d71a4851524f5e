//! Refined trees over views of nested sets: rules end in these.
#![tactic(auto)]

pub mod laws;
