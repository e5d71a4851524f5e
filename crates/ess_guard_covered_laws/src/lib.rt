//! Which judged trees are covered by the laws of totality.
#![tactic(auto)]

pub mod laws;
