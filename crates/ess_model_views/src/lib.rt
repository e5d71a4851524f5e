//! What stands over tables in the place of names behind a statement: views of givens and finds by their plans.
#![tactic(auto)]

mod statements;
mod views;

pub use statements::shows_behind;
pub use views::{domain_shown, view_by};
