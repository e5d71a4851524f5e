//! What picks a value out of a term: whether a tree does, what it picks within, the index of an item, an index of several steps one by
//! one, and the names for the components of an argument.
#![tactic(auto)]

mod components;
mod forms;
mod paths;

pub use components::{names_of_argument, names_seen};
pub use forms::{indexed, picked_within, picks};
pub use paths::step_apart;
