//! What is written for declared tables: their domains with refined bounds, as declarations of a model.
//!
//! The rules of a model in order: the structures of the finds' tables, that further views of a find stand for what the first one
//! does, that the objective has a value, and the constraints.
#![tactic(auto)]

mod bounds;
mod constraints;
mod declarations;
mod domains;
mod objectives;
mod structures;
mod trees;

pub use constraints::constraints_of;
pub use declarations::{decl_written, decls_written};
pub use objectives::{Objective, objective_of};
pub use structures::{channels_of, structures_of};
