//! Bound names of a model's trees told apart, over nodes: each becomes a reserved name of its own. Beside it the names that are bound
//! around a place, with what they have become, for other passes that rename.
#![tactic(auto)]

mod scopes;
mod telling;
mod told_domains;
mod told_generators;
mod told_patterns;

pub use scopes::{Renamed, bind, renamed_name};
pub use telling::{told_apart, told_apart_from};
pub use told_domains::told_dom_from;
