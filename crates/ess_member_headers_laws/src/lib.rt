//! The lines of headers of models of sets of atoms are those headers, and representations that are chosen choose themselves.
#![tactic(auto)]

pub mod laws;
