//! Positions in place of the values of named types, in values and domains, and the types put back.
#![tactic(auto)]

mod domains;
mod matrices;
mod parts;
mod shared;
mod types;
mod values;

pub use domains::domain_with_positions;
pub use types::with_types;
pub use values::with_positions;
