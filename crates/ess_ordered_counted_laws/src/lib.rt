//! What rules of comprehensions whose items have an order count on, from values.
#![tactic(auto)]

pub mod laws;
