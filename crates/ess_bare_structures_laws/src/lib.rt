//! Structures of nested sets: bare trees that mean that the tables are canonical.
#![tactic(auto)]

pub mod laws;
