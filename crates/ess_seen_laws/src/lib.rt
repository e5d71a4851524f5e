//! Trees over views of nested sets: which these are, their parts and types, and what may be put into them.
#![tactic(auto)]

pub mod laws;
