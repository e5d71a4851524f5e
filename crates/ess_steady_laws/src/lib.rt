//! Which trees are steady: terms may be put for their names.
#![tactic(auto)]

pub mod laws;
