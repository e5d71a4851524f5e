//! What is given in conditions stays, from judged specifications on.
#![tactic(auto)]

pub mod laws;
