//! Trees in the form of the definitions: an operator with its operands in one row, a domain with its numbers in one row. The passes
//! that refine work on them, so that each is written as the definition that it computes.
#![tactic(auto)]

mod converting;
mod converting_domains;
mod converting_generators;
mod converting_literals;
mod copies;
pub mod nodes;
pub mod words;

pub use converting::node_of;
pub use converting_domains::dom_of;
pub use converting_generators::copy_texts;
pub use copies::{copy_doms, copy_gens, copy_nodes};
pub use nodes::{Gen, Node, NodeDom, Seen};
pub use words::{Ends, Mark, Op, Step};
