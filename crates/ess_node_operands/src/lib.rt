//! The operands of a node by their number, so that a pass takes an operator and its operands apart by one match.
#![tactic(auto)]

pub mod operands;

pub use operands::{Operands, by_number};
