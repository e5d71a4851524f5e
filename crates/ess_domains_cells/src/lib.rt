//! How many cells the tables of a representation have.
#![tactic(auto)]

mod attributes;
mod bounds;
mod calls;
mod functions;
mod kept;
mod kinds;
mod layers;
mod members;
mod partitions;
mod ranges;
mod relations;
mod representations;
mod sets;
mod shapes;

pub use calls::{cells, counted_cells};
