//! Options with which the same is kept have the same models.
#![tactic(auto)]

pub mod laws;
