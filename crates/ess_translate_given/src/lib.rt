//! The given tables of a parameter, and the first given or find that would have too many cells.
#![tactic(auto)]

mod counts;
mod plan_tables;
mod tables;

pub use counts::first_too_many;
pub use tables::given_tables;
