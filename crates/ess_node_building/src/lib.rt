//! The trees that passes build, node by node: an operator with its operands, a comprehension with its generators. Each call says
//! which tree of the definitions it answers.
#![tactic(auto)]

mod generators;
mod nodes;
mod rows;

pub use generators::{condition, from, over};
pub use nodes::{
    binary, component, comprehension, literal, name, number, pair, truth, unary, word,
};
pub use rows::{joined, only, two};
