//! The domains below the layers of a view: the domain of a layer's child and the axes before its tables, also where a value is kept as
//! a set or a relation and its sizes become attributes.
#![tactic(auto)]

mod below;
mod conversions;

pub use below::{Inner, axes_over, inner_of};
pub use conversions::{pair_relation, part_sets, tuple_set};
