//! What views of functions and relations offer that are kept by argument: their pairs or tuples as a listing, and the result at an
//! argument. Each call answers nothing for a tree that is no view of its kind.
#![tactic(auto)]

mod applications;
mod lookups;
mod names;
mod offers;
mod relations;
mod results;
pub mod runs;
mod singles;
mod tuples;

pub use lookups::{function_nd_lookup, function_nd_partial_lookup};
pub use relations::relation_matrix_listing;
pub use runs::Run;
pub use singles::{function_1d_listing, function_1d_partial_listing};
pub use tuples::{function_nd_listing, function_nd_partial_listing};
