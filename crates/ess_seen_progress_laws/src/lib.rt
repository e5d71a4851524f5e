//! Trees over views of nested sets in which something abstract is left: a rule fires at a part of each.
#![tactic(auto)]

pub mod laws;
