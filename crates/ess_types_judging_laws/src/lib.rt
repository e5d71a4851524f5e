//! Judging a statement in one pass: what is found of a part is what is found of the parts in it, put together.
#![tactic(auto)]

pub mod laws;
