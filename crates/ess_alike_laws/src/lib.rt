//! Which listings have items of the type of what they list.
#![tactic(auto)]

pub mod laws;
