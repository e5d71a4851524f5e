//! Rules of containers keep types.
#![tactic(auto)]

pub mod laws;
