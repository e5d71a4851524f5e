//! Conditions that read cells, gathered behind the generators of `min` and `max`: what the rule makes, and that it keeps what it rewrites.
#![tactic(auto)]

pub mod laws;
