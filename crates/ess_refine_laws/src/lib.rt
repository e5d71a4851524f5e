//! Refining: what the rules of refinement count on when several of them meet, and what a tree is when none fires.
#![tactic(auto)]

pub mod laws;
