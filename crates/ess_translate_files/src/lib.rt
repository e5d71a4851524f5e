//! The files of a model and of a parameter for it, and the tables of the parameter.
//!
//! Files are read one after another: `model_file` reads a model with its header, `given_in` a parameter for it; `given_text` writes
//! the tables of the parameter.
#![tactic(auto)]

mod given_texts;
mod givens;
mod models;
mod refusals;
mod tables;

pub use ess_translate::{TransNo, Which};
pub use given_texts::given_text;
pub use givens::{Given, given_in};
pub use models::{ModelFile, model_file};
pub use refusals::read_no;
