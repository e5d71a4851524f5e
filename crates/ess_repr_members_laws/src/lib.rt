//! The declared tables of a representation have the right members: each axis, and each cell's domain, under each parameter.
#![tactic(auto)]

pub mod laws;
