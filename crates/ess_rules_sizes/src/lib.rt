//! The rules of sizes, frequencies and `together`: what each makes of the root of a tree, where it fires. And which lists have scalars
//! as their items.
#![tactic(auto)]

mod kinds;
mod pieces;
mod scalars;
mod short_sizes;
mod sizes;

pub use scalars::tells_scalars_apart;
pub use short_sizes::{frequency_listed, frequency_made, size_made};
pub use sizes::{frequency_term, size_term, together_term};
