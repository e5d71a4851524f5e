//! The types of views.
#![tactic(auto)]

pub mod laws;
