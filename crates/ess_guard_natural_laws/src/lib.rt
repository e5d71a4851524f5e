//! What the guard with natural places leaves: trees that are total but for plain operators in natural places.
#![tactic(auto)]

pub mod laws;
