//! Values of a text of cells as tables over declarations.
#![tactic(auto)]

mod items;
mod judging;
mod tables;

pub use judging::{FitNo, fit};
