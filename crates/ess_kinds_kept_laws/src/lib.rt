//! The rules that read the kind of a view keep the meaning of what they rewrite.
#![tactic(auto)]

pub mod laws;
