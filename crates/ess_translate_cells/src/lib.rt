//! Declared tables of a model beside those of a representation over a domain whose numbers are known.
#![tactic(auto)]

mod closing;
mod comparing;
mod own_cells;
mod ranges;
mod representations;
mod tables;

pub use closing::{ClosedTable, closed_tables};
pub use tables::{behind_cell, behind_tables};
