//! What the tables of a header have as members, plan by plan: their axes, and the numbers of their cells.
//!
//! `specs` says when a model declares them (`DeclaresMembers`). `laws` says that positions in place of named types change neither,
//! that two lists of maximal runs with the same members are one, and that a header's side is that of its plans.
#![tactic(auto)]

pub mod laws;
