//! Sizes of views as terms, and the names of what views of sets offer.
#![tactic(auto)]

pub mod laws;
