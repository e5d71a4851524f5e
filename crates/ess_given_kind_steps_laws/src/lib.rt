//! Steps by rules that read the kind of a view keep what is given.
#![tactic(auto)]

pub mod laws;
