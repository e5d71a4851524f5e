//! Flat trees over scalars that may be values of named types, in models.
#![tactic(auto)]

pub mod laws;
