//! What is written for trees in which nothing abstract is left is an expression of a model.
#![tactic(auto)]

pub mod laws;
