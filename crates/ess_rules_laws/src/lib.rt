//! Rewriting keeps the meaning: laws over the definitions of contexts, scope and what a rule keeps.
#![tactic(auto)]

pub mod generic_laws;
pub mod laws;
pub mod view_laws;
