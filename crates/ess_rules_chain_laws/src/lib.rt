//! What all rules keep together: meanings, types and marks, at any part and any number of them.
#![tactic(auto)]

pub mod laws;
