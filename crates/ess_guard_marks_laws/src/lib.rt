//! Terms under conditions keep their marks.
#![tactic(auto)]

pub mod laws;
