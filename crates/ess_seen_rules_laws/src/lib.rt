//! Rules of rewriting in trees over views of sets: only a few fire.
#![tactic(auto)]

pub mod laws;
