//! Channels of every domain, and one layer of every kind of representation.
#![tactic(auto)]

pub mod laws;
