//! The reader of models in Essence Prime.
//!
//! A model is read in parts: a declaration, the objective, the constraints. Each part goes from the word that begins it to
//! the next word that begins a statement, and is read as a specification of its own; where it ends it is converted, with
//! the names that earlier lines declare. `Machine` takes token by token, exactly as the machine of `eprime_read_laws` does,
//! and `read_model` runs it over a text.
#![tactic(auto)]

mod converting;
mod drafts;
mod endings;
mod growing;
mod language;
mod machine;
mod models;
mod openings;
mod parts;
mod statements;
mod steps;

pub use ess_parse::ReadNo;
pub use models::{derived_model, read_model};
