//! The rule of conditions that read cells, several under one `min` or `max`: they become one behind all generators.
#![tactic(auto)]

mod gathering;
mod parts;

pub use gathering::conditions_gathered;
