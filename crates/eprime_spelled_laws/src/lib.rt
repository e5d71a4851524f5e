//! A text that spells a model's tree, and is a model by the rules, is that model.
#![tactic(auto)]

pub mod laws;
