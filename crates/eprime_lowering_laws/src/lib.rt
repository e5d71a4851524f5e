//! Which refined trees are expressions of models.
#![tactic(auto)]

pub mod laws;
