//! Comprehensions whose items have an order: the names of what their rules make.
#![tactic(auto)]

pub mod laws;
