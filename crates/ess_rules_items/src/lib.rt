//! Items of views: what stands at an index of a matrix.
#![tactic(auto)]

mod matrices;

pub use matrices::item_view;
