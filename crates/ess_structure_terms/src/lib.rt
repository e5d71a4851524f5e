//! The terms that structures of views are built of: names with numbers, index lists, generators over axes, cells and their rows, slots
//! in order, and what the attributes that speak of sizes ask.
#![tactic(auto)]

mod indices;
mod names;
mod ordering;
pub mod shapes;
mod size_attributes;
mod slots;
mod terms;

pub use indices::{
    each, level_behind, only_axis, over_one, row_gens, row_index, slot_axis, upto, with_index,
    with_name, with_next,
};
pub use names::{bound_name, counted_on, reserved_name};
pub use ordering::{less, not_above};
pub use shapes::{Shape, cell_at, cell_over, zeros};
pub use size_attributes::{counts, place_count, size_key, sizes, true_count};
pub use slots::{
    each_pair, first_slots, is_next_used, is_used, slots_in_use, used_slots, where_holds,
};
pub use terms::{
    all_over, at_most, both, count_over, differ_over, either, equal, implies, negated, size_of,
    some_over, sum_over,
};
