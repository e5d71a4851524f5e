//! The structure of a view: the constraint that cells are the canonical ones of a member, for each representation and each domain.
#![tactic(auto)]

mod building;
mod parts;
mod view_tables;
mod widths;

pub use building::structure;
pub use view_tables::tables;
