//! Bare trees over cells: which these are, which rules of rewriting fire in them, and what these keep.
#![tactic(auto)]

pub mod laws;
