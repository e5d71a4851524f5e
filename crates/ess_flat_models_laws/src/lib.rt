//! Specifications of scalars with flat and total constraints: their models, and that these are right.
#![tactic(auto)]

pub mod laws;
