//! Canonical tables of values, of every representation at any nesting.
//!
//! `specs` says when a domain is finite, when a representation has room for its members (`Rooms`), and what it is for a
//! member to have one canonical form (`CanonicalTables`). `laws` says that each member has one. Everything else is lemmas.
#![tactic(auto)]

pub mod laws;
