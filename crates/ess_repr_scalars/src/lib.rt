//! One layer of atoms and of matrices: their parts, their tables made of those of the parts, and their values.
#![tactic(auto)]

mod atoms;
mod elements;
mod kinds;
mod nesting;

pub use kinds::{down, parts, up};
