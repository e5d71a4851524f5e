//! What is given stays where terms get conditions.
#![tactic(auto)]

pub mod laws;
