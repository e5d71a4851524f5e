//! The types of nodes under the types of the names that are bound around them.
#![tactic(auto)]

mod domains;
mod expressions;
mod generators;
mod indices;
pub mod names;
mod operators;
mod records;

pub use domains::type_of_dom;
pub use expressions::{type_of, types_of};
pub use generators::{names_behind, pass, source_type, types_under};
pub use names::NameTypes;
pub use operators::type_of_op;
