//! What is given in conditions and domains, from a judged specification on.
#![tactic(auto)]

pub mod laws;
