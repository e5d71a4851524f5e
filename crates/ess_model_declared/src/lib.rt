//! The declared tables of plans, over nodes: with their whole names, and with domains over tables, before their bounds are refined.
#![tactic(auto)]

mod plans;

pub use ess_declared_trees::Declared;
pub use plans::{all_declared, declared_of};
