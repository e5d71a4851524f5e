//! Steps of rules that read views of multisets.
#![tactic(auto)]

pub mod laws;
