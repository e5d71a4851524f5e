//! One layer of a view: its tables, and its structure, given those of its child. Layers without a child have both by themselves.
#![tactic(auto)]

mod children;
mod layers;
mod leaf_shapes;
mod leaves;
mod names;
mod slot_layers;
mod tables;
mod views;

pub use children::is_compound;
pub use layers::layer_structure;
pub use leaf_shapes::leaf_tables;
pub use leaves::leaf;
pub use names::{behind, front};
pub use tables::layer_tables;
