//! What the structure of a view asks of its own tables, given what it asks of its parts: sets and multisets that are kept by their
//! members or in slots, and the attributes of functions, relations, multisets and partitions.
#![tactic(auto)]

mod function_pairs;
mod functions;
mod multisets;
mod partition_parts;
mod partitions;
mod relations;
mod sets;
mod views;

pub use function_pairs::pairs;
pub use functions::{partial, total};
pub use multisets::repetition;
pub use partition_parts::parts;
pub use partitions::numbered;
pub use relations::{relation, relation_keys};
pub use sets::{counted, explicit, flags, marker, occurrence, with_dummy};
pub use views::{is_bool, view};
