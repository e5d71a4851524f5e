//! Steps of rules that read views of partitions.
#![tactic(auto)]

pub mod laws;
