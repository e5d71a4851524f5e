//! From expressions of a specification to those of its model, over nodes: over tables, with their undefined terms done away with,
//! refined, simplified, with printed names, and as trees of models.
#![tactic(auto)]

mod over_tables;
mod parts;
mod wholes;
mod writing;

pub use parts::{tree_printed, tree_written};
pub use wholes::{condition_written, constraint_written, objective_written};
pub use writing::written;
