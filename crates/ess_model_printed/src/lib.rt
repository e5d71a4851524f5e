//! Bound names of refined trees printed, over nodes: that of a binder is the first of q1, q2, .. that is free there.
#![tactic(auto)]

mod printed_generators;
mod printed_patterns;
mod printing;
mod taken;

pub use printing::printed;
pub use taken::Taken;
