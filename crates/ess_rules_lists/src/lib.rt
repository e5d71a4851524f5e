//! The rules of literals, lists and chosen numbers: what each makes of the root of a tree, where it fires.
#![tactic(auto)]

mod choices;
mod items;
mod lists;
mod literals;
mod pieces;

pub use choices::choice_shorter;
pub use lists::{different_term, lex_both, list_term};
pub use literals::{component_listed, different_listed, extreme_listed, field_listed};
