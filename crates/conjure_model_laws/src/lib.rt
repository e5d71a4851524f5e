//! What a model is built of: its header, its declarations, its objective and its rules in order.
//!
//! `specs` says what is made of a specification as trees over tables, and how what a model has is written for them. `laws` says that
//! bound names told apart, views put in and names printed are as the definitions of models want them, and `tree_laws` that the trees
//! on the way keep their meanings.
#![tactic(auto)]

pub mod laws;
pub mod tree_laws;
