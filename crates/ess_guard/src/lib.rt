//! Undefined terms done away with: each Boolean of a tree of nodes stands under the conditions under which its terms have values.
#![tactic(auto)]

mod assembling;
mod domains;
mod guarding;
mod guarding_domains;
mod wholes;

pub use wholes::{has_value, make_natural, make_total, make_total_term};
