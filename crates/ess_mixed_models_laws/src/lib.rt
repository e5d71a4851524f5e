//! Specifications of scalars and sets side by side, with constraints over the scalars, ranges and members of sets: their models are right.
#![tactic(auto)]

pub mod laws;
