//! The reader of texts of cells, the parameters and solutions of Essence Prime.
//!
//! A text is read in one pass of a machine that takes token by token, behind one pass for each reason to refuse it that is no
//! matter of the grammar.
#![tactic(auto)]

mod cells;
mod lettings;

pub use cells::{CellsNo, read_cells};
pub use lettings::read_lettings;
