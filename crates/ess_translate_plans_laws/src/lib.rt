//! Plans one after the other, as definitions: what each statement of a header asks for, and the names that its tables get beside
//! those before them.
//!
//! `laws` says that the plans that are made in this order are those of the header.
#![tactic(auto)]

pub mod laws;
