//! Numbers in trees over views of nested sets that have a value everywhere.
#![tactic(auto)]

pub mod laws;
