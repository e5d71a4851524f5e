//! The values for which tables of finds stand: by each plan of a find, and by all of them.
#![tactic(auto)]

mod answers;
mod copies;
mod lookups;
mod reading;
mod stood;

pub use stood::{StoodFor, values_by};
