//! Steps of rules that read views of functions.
#![tactic(auto)]

pub mod laws;
