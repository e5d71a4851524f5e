//! A machine that reads texts of cells, the parameters and solutions of Essence Prime, token by token.
//!
//! Its steps are those of the machine of `eprime_read_cells_laws`, whose laws say that it reads exactly what the rules of
//! `ess_grammar` derive. It reads straight into small trees of numbers, truth values and lists: a list has sixteen bytes for
//! each item, so that large tables fit in memory.
#![tactic(auto)]

mod closing;
mod machine;
mod numbers;
mod ranges;
mod stages;
mod steps;
mod values;

pub use machine::Machine;
pub use values::{CellLetting, CellList, CellRange, CellValue, Number};
