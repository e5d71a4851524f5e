//! Flat total trees on the way to a rule: what tells apart, shows, guards, keys and prints leaves them as they are.
#![tactic(auto)]

pub mod laws;
