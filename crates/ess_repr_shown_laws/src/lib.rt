//! Domains over tables keep the forms of their domains.
#![tactic(auto)]

pub mod laws;
