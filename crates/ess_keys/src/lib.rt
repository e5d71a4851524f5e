//! Refined trees with plain keys: truth values at which cells are taken become numbers, and a generator over a domain goes where the
//! conditions behind it say which member it is. Long conjunctions become lists.
#![tactic(auto)]

mod around;
mod chains;
mod finding;
mod folding;
mod forms;
mod generators;
mod joining;
mod keying;

pub use keying::with_plain_keys;
