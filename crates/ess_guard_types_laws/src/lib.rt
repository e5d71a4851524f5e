//! Terms under conditions keep their types.
#![tactic(auto)]

pub mod laws;
