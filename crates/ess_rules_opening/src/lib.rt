//! Generators taken apart at the first that isn't plain, generators over domains alone, and the rules there that need nothing of what a
//! source offers: folds of folds, patterns over sources, words that see no repeats or no index domain. Each call is the definition that it
//! computes; a rule answers nothing where it doesn't fire.
#![tactic(auto)]

mod domains;
mod forms;
mod gens;
mod loosely;
mod nesting;
mod patterns;

pub use domains::{are_over_domains, has_no_source};
pub use forms::{CompWord, comp_word, forgets_order};
pub use gens::{Opened, at_first_open};
pub use loosely::{listed_plainly, seen_loosely};
pub use nesting::nested;
pub use patterns::pattern_opened;
