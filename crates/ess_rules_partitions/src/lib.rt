//! What operators make of views of partitions that are kept by the number of each member's part: parties, numbers of parts,
//! participants, members that lie together. Each call answers nothing for a tree to which its rule doesn't apply.
#![tactic(auto)]

mod cells;
mod forms;
pub mod numbered;
mod parties;
mod together;

pub use parties::{is_participant, number_of_parts, partition_party};
pub use together::are_together;
