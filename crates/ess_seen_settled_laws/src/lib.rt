//! Trees over views of nested sets at whose parts no rule fires: nothing abstract is left in them.
#![tactic(auto)]

pub mod laws;
