//! Trees refined: rules at the root and at the parts, until none fires, or refining is given up.
#![tactic(auto)]

mod passing;
mod passing_domains;
mod passing_generators;
mod refining;
mod resting;
mod resting_domains;
mod resting_generators;

pub use refining::{Refinement, refine};
