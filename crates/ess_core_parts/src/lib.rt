//! The parts of trees, numbered from 0 in the order of the text, to be read and to be replaced in place. No call here takes
//! memory.
#![tactic(auto)]

mod domains;
mod expressions;
mod holders;
mod numbered;
mod paths;
mod rows;

pub use paths::{Edit, child, edit_at, focus, put, replace_at};
