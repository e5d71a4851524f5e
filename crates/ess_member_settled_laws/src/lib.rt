//! Trees of a membership at whose parts no rule fires: nothing abstract is left in them.
#![tactic(auto)]

pub mod laws;
