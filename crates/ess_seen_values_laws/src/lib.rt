//! Values of trees over views of sets: what rules that fire in them keep.
#![tactic(auto)]

pub mod laws;
