//! Types of judged trees, and what the guard keeps of them.
#![tactic(auto)]

pub mod laws;
