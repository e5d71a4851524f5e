//! Rules of rewriting in trees over views of sets: each that fires leaves such a tree.
#![tactic(auto)]

pub mod laws;
