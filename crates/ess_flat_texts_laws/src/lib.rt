//! Models of specifications of scalars with flat and total constraints are models that some text has.
#![tactic(auto)]

pub mod laws;
