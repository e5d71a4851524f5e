//! Solutions and the tables of a model: what is written for satisfying tables by the model's header is valid, and each solution has exactly
//! one list of tables that satisfies the model and stands for it.
#![tactic(auto)]

pub mod laws;
