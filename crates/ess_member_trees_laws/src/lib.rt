//! The trees to which rules lead from the test that a value is a member of a set kept by which members occur.
#![tactic(auto)]

pub mod laws;
