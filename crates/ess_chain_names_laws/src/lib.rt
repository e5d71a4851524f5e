//! Names along chains of rules: which names rules make a tree use and bind.
#![tactic(auto)]

pub mod laws;
