//! What a model asks of its finds' tables, as trees: that they are canonical, and that further views of a find stand for what the first
//! one does.
#![tactic(auto)]

mod views;

pub use views::{channel_trees, structure_trees};
