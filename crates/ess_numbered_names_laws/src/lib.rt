//! Comprehensions over sources whose items are counted: the names of what their rules make.
#![tactic(auto)]

pub mod laws;
