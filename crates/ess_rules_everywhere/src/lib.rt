//! Numbers that are there everywhere, in the place of refined ones, and whether a tree reads a table: what the rules of conditions that
//! read cells ask for.
#![tactic(auto)]

mod cells;
mod guarded;
mod numbers;
mod there;

pub use cells::has_cells;
pub use guarded::chosen;
pub use there::{everywhere, everywhere_dom, everywhere_exs, everywhere_gens};
