//! The whole model of a specification: its header, its declarations, its objective and its rules in order, and its text.
#![tactic(auto)]

mod declared;
mod headers;
mod names;
mod parts;
mod rules;
mod texts;
mod wholes;

pub use parts::Part;
pub use texts::{Spelled, model_text};
pub use wholes::{Modelled, model_of};
