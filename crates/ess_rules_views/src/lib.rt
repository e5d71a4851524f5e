//! Rules of views, by the kinds of their representations: what is kept in one table, in slots, by argument. Each call answers what
//! the rule of the definitions makes of the root of a tree, or nothing where the rule doesn't fire.
#![tactic(auto)]

mod atoms;
mod functions;
mod keys;
mod lookups;
mod parts;
mod picked;
mod sizes;

pub use atoms::{atom_cell, member_by_cell};
pub use functions::{
    defined_everywhere, defined_where_flagged, lookup_behind_flag, result_at_argument,
};
pub use lookups::{function_1d_lookup, function_1d_partial_lookup};
pub use picked::{matrix_lookup, part_lookup};
pub use sizes::{size_by_marker, size_by_slots};
