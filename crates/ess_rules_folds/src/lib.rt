//! Rules of folds over lists, over nodes: each call is the rule of the definitions that it computes. It answers nothing where the rule
//! doesn't fire.
#![tactic(auto)]

pub mod forms;
mod items;
mod lists;
mod quantifiers;

pub use items::fold_items;
pub use lists::{fold_bare, fold_nothing, fold_one, fold_term, is_laid_open, is_marked};
pub use quantifiers::{fold_alone, fold_loosely};
