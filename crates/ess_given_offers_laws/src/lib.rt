//! What views and selections offer is given where they are, and in order where they are.
#![tactic(auto)]

pub mod laws;
