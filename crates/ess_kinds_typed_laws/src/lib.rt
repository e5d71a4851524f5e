//! Types and marks of rules that read kinds of views, those of sets apart.
#![tactic(auto)]

pub mod laws;
