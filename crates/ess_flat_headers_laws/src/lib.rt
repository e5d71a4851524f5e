//! The lines of headers of models of specifications of scalars are those headers, and representations that are chosen choose themselves.
#![tactic(auto)]

pub mod laws;
