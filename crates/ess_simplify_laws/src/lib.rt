//! Simplifying: which tree it makes, and the laws of that tree.
#![tactic(auto)]

pub mod laws;
pub mod words;

pub use words::Outcome;
