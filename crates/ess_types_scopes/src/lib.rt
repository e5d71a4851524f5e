//! What a scope keeps of the names declared so far, found by hash: sets of names, and lettings.
#![tactic(auto)]

mod added;
mod lettings;
mod names;

pub use added::Added;
pub use lettings::Lettings;
pub use names::NameSet;
