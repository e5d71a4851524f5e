//! Expressions beside their types: nodes made of parts that stand beside theirs, so that the type of each part is found once.
#![tactic(auto)]

mod generators;
mod literals;
mod nodes;
mod rows;
mod types;

pub use generators::{
    both_fit, condition_fits, fits_where, from_node, if_node, member_of, or_any, over_node,
};
pub use literals::{
    function_node, list_node, matrix_node, mset_node, partition_node, record_node, relation_node,
    set_node, tuple_node,
};
pub use nodes::{apply_node, call_node, comp_node, leaf_node, one_node, two_node};
pub use rows::{pair_node, with_type};
