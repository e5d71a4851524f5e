//! Simplifying nodes in place. Nothing is allocated.
#![tactic(auto)]

mod roots;
mod simplifying;

pub use simplifying::simplify;
