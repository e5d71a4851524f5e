//! The rules at the first generator that isn't plain, of what is picked, of relations applied and of indices of several steps keep the
//! meaning of what they rewrite.
#![tactic(auto)]

pub mod laws;
