//! The first given or find with too many cells, found in one pass over the plans of a header.
#![tactic(auto)]

pub mod laws;
