//! What a well typed specification says at its places and behind all statements.
//!
//! `laws` says that what a statement says at its place it says behind all statements: its names and its types' names are known at its
//! place, later statements declare others, and the domain of a given or find depends on no find. And that behind all statements each
//! declared name has what its statement says (`specs/EndValues`).
#![tactic(auto)]

pub mod laws;
