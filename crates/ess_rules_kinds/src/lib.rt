//! What views offer as listings, a kind at a time: generators over the tables of the view, and the item at each of their bindings. Each
//! call answers nothing for a tree that is no view of its kind.
#![tactic(auto)]

mod multisets;
mod partitions;
pub mod parts;
pub mod pieces;
mod sets;
mod slots;

pub use multisets::{counted_members, members_once, occurrence_members, repetition_members};
pub use partitions::{numbering, partition_parts};
pub use parts::{Leaf, Nested, Pair, leaf_kind, leaf_parts, nested_parts, pair_parts};
pub use sets::{dummy_listing, occurrence_listing};
pub use slots::{explicit_listing, flags_listing, marker_listing};
