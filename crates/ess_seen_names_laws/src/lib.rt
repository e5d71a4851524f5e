//! Names, numbers and scopes of trees over views of nested sets, along rules.
#![tactic(auto)]

pub mod laws;
