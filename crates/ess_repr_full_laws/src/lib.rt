//! When tables are full for the structure of a view whose domain reads tables.
#![tactic(auto)]

pub mod laws;
