//! One layer of slots, down and up: the tables of a set or multiset made of those of its slots, and the slots in use cut out of them.
#![tactic(auto)]

mod axes;
mod counted;
mod down;
mod parts;
mod places;
mod up;

pub use axes::slot_axis;
pub use counted::{CountedSlot, counted_slots};
pub use down::{flagged_slots, marked_slots, slot_tables};
pub use parts::{all_used, one_cell, one_row};
pub use places::spread;
pub use up::slots_in_use;
