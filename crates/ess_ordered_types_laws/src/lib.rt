//! Types and marks of rules of comprehensions whose items have an order, and of the one that gathers conditions.
#![tactic(auto)]

pub mod laws;
