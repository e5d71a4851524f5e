//! The structure constraints of views of judged domains: what is asked of a view's domain for its structure to mean that its cells are
//! canonical follows from the judgements.
#![tactic(auto)]

pub mod laws;
