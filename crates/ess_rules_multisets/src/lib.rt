//! What operators make of views of multisets, a kind at a time: sizes, frequencies, members. Each call answers nothing for a tree to
//! which its rule doesn't apply.
#![tactic(auto)]

mod forms;
mod frequencies;
mod membership;
mod sizes;

pub use frequencies::multiset_frequency;
pub use membership::multiset_member;
pub use sizes::multiset_size;
