//! Equality of models: whether two models are one tree. Names are equal by their bytes, and lists by their items in order. It takes no
//! memory.
#![tactic(auto)]

mod models;

pub use models::same_model;
