//! All rules of refinement at a place of a tree, in the order in which they are tried: those of kinds and of what is picked, those of
//! sources, and those that need no kind.
#![tactic(auto)]

mod comparing;
mod conditions;
mod equality;
mod folds;
mod generators;
mod lists;
mod membership;
mod numbered;
mod ordered;
mod reserving;
mod settled;
mod sizes;
mod source_rules;
mod sourced;
mod special;
mod turns;

pub use turns::rule_at;
