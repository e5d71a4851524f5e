//! Whether a model declares the members of its header's tables under a parameter: axes with the same members, and cells with the same
//! numbers.
#![tactic(auto)]

mod declaring;
mod sides;

pub use declaring::declares_members;
