//! Evaluation: what expressions mean, and which domains domain expressions denote.
#![tactic(auto)]

mod building;
mod calls;
mod closing;
mod evaluating;
mod folding;
mod generating;
mod halving;
mod literals;
mod marking;
mod names;
mod numbering;
mod operands;
mod patterns;
mod reading;
mod risen;
mod sweeping;

pub use calls::{EvalNo, domain_of, truth, value};
