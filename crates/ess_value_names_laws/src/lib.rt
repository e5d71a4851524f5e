//! Names of values of named types: in a parameter of a well typed specification no two values have one name.
#![tactic(auto)]

pub mod laws;
