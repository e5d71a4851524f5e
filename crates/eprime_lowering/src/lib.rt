//! Refined trees as expressions of models: each node becomes the one of a model that stands for it.
//!
//! A tree is kept as it is where some tree of a model stands for it, where earlier lines declare names; else the answer is None.
#![tactic(auto)]

mod building;
mod domains;
mod lists;
mod lowering;
mod operators;
mod ranges;

pub use domains::lower_dom;
pub use lowering::lower;
