//! Which tables the model of a header declares, as definitions: their names and numbers of axes are known from the header alone,
//! before any parameter is read.
//!
//! `laws` says that a right model of a well typed specification declares the tables of its header.
#![tactic(auto)]

pub mod laws;
