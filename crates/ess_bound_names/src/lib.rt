//! The names that generators bind.
//!
//! Each name is looked up in an ordered set, so that a text with many names is read in little more than linear time.
#![tactic(auto)]

mod names;

pub use names::BoundNames;
