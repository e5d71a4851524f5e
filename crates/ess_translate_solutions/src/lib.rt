//! Both translations between the files of a specification and those of a model.
//!
//! `solution_in` reads cells of what a model is to find, for a model's file and a parameter's, and writes the solution for which they
//! stand.
//!
//! Both translations between the files of a specification and those of a model, from texts alone.
#![tactic(auto)]

mod refusals;
mod solution_texts;
mod solutions;
mod translations;

pub use solutions::solution_in;
pub use translations::{parameter, solution};
