//! Keys of cells: which tree with plain keys a refined tree becomes, and the law of it.
#![tactic(auto)]

pub mod laws;
