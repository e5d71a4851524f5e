//! The given tables of a parameter for the header of a model, as definitions and laws over them alone.
//!
//! `specs/Ready` says what a header has beyond its judgements and what it is that a parameter has its given tables,
//! `specs/ByPlans` and `specs/Counts` what plans add one after the other. `laws` says that a parameter has its given tables,
//! that they are what its plans add, and that they may be printed and are read again from their text.
#![tactic(auto)]

pub mod laws;
