//! What views and selections offer, whatever their kind: the members of a view as a listing, what is picked out of a term as a lookup, and
//! the sizes of a view. Each call is the definition that it computes; it answers nothing for a tree to which that doesn't apply.
#![tactic(auto)]

mod kinds;
mod listings;
mod literals;
mod lookups;
mod matrices;
mod selections;
mod sizes;

pub use listings::view_listing;
pub use lookups::looked_up;
pub use matrices::matrix_listing;
pub use sizes::{members_of_first, partitioned_second, slots_of_operand};
