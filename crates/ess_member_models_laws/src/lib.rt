//! Models whose constraints say by what is written for memberships which values sets hold.
#![tactic(auto)]

pub mod laws;
