//! Lookups by alternatives: what a picked value is, case by case, over nodes. Each call is the rule of the definitions that it computes;
//! it answers nothing where the rule doesn't fire.
#![tactic(auto)]

mod cases;
mod functions;
mod numbers;
mod picked;
mod selecting;
mod through;

pub use functions::function_literal_lookup;
pub use numbers::{list_lookup, numbered};
pub use picked::picking_each;
pub use selecting::{select_each, select_whole_each};
pub use through::{as_alternative, lookup_through_each, members_of_each};
