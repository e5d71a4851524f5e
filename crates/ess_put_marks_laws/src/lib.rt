//! Rules that put terms for names keep marks, and so do those of components, fields and items.
#![tactic(auto)]

pub mod laws;
