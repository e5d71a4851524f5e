//! Comprehensions whose items have an order, picked by number and run over by indices: what the rules make, and that they keep what they
//! rewrite.
#![tactic(auto)]

pub mod laws;
