//! The env of a parameter, and the closed domains of plans under it: what both translations of a model's header need before any table.
#![tactic(auto)]

mod environments;
mod plans;

pub use environments::env_under;
pub use plans::closed_plans;
