//! The types of names, and the type of an expression under them.
#![tactic(auto)]

mod expressions;
mod indices;
mod literals;
mod rows;
mod table;
mod under;

pub use expressions::type_of;
pub use rows::types_of;
pub use table::{Declared, TypeTable};
pub use under::{Under, types_under};
