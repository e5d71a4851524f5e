//! Types and marks of rules of comprehensions over sources whose items are counted.
#![tactic(auto)]

pub mod laws;
