//! Rules used where the first source is told apart anew.
#![tactic(auto)]

pub mod laws;
