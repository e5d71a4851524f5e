//! Values along chains of rules.
#![tactic(auto)]

pub mod laws;
