//! Forms of nodes that passes ask for: refined trees, and simple nodes. No call takes memory.
#![tactic(auto)]

mod operators;
mod refined;
mod simple;

pub use operators::{is_list_op, is_scalar_op, is_truth_op};
pub use refined::{are_refined_gens, is_list, is_refined};
pub use simple::is_simple_node;
