//! The types of names behind a statement, and where no letting is put in.
#![tactic(auto)]

mod places;
mod statements;

pub use places::is_record_or_tuple;
pub use statements::types_after;
