//! An expression put in the place of a name, over nodes. Bound names are told apart beforehand, so nothing is renamed. Each call is
//! the definition that it computes.
#![tactic(auto)]

mod domains;
mod expressions;
mod generators;

pub use domains::substitute_dom;
pub use expressions::substitute;
pub use generators::substitute_gens;
