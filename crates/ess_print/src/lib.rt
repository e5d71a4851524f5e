//! The printing of specifications: the text of a statement and of a representation.
//!
//! Which text a tree has is defined in `ess_print_laws`. Each function here writes a part of a tree behind a text that is already
//! there. An operand of an operator stands in brackets where it is itself an operator's expression, and some other parts do
//! that would be read as something else.
#![tactic(auto)]

mod brackets;
mod collections;
mod domains;
mod expressions;
mod generators;
mod parts;
mod patterns;
mod representations;
mod statements;
mod words;

pub use ess_core::{NoMemory, Repr, Stm, Text};
pub use representations::print_repr;
pub use statements::print_stm;
