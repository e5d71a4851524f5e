//! What marked terms offer as listings has marks.
#![tactic(auto)]

pub mod laws;
