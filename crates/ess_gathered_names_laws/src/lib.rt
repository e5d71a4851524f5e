//! Conditions that read cells, gathered behind the generators of `min` and `max`: the names of what the rule makes.
#![tactic(auto)]

pub mod laws;
