//! What every view of a container offers, and which of what is picked out of a term is looked up.
#![tactic(auto)]

pub mod laws;
