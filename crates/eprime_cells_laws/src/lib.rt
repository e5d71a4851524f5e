//! What texts of cells stand for over declared tables, and how tables are printed as such a text.
#![tactic(auto)]

pub mod laws;
