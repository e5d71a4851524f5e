//! Expressions and domains of models from trees as the parser gives them.
//!
//! The grammar of models is that of specifications, and a text is a model where its trees are those of one, with the names
//! that earlier lines declare as cells. So the reader of models parses as that of specifications does, and converts each
//! finished expression and domain: the answer is None where the tree is none of a model's.
#![tactic(auto)]

pub mod declarations;
pub mod domains;
pub mod expressions;
pub mod lines;
mod lists;
mod names;
mod nodes;
mod operators;
mod scopes;

pub use lines::{Line, Lines};
pub use scopes::Scopes;
