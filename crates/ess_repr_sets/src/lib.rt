//! One layer of sets and multisets, and of atoms: own tables made of a value, and values made of them and of the values in the slots.
#![tactic(auto)]

mod atoms;
mod built;
mod dummies;
mod fillers;
mod kinds;
mod members;
mod mset_kinds;
mod msets;
mod repeats;
mod set_kinds;
mod sets;
mod times;

pub use atoms::{atom_value, code, codes};
pub use built::{first_items, mset_in_slots, set_in_slots};
pub use dummies::{dummy, dummy_tables, dummy_value};
pub use kinds::{down, parts, up};
pub use members::{holds, occurrences, picked};
pub use msets::{count_tables, counted_mset, counts_mset, distinct, slots_with_times};
pub use sets::{member_list, occurrence_set, occurrence_tables};
pub use times::counts;
