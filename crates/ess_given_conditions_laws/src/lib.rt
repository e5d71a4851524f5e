//! What is given in conditions and domains, along chains of rules and from judged trees on.
#![tactic(auto)]

pub mod laws;
