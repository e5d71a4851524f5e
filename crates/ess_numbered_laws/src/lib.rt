//! Comprehensions over sources whose items are counted: what the rules make, and that they keep what they rewrite.
#![tactic(auto)]

pub mod laws;
