//! Children and declared tables of representations as trees, whose bounds are expressions.
//!
//! `specs` has the definitions: sizes of domains as expressions (`SizeTerms`), the domains of children (`ChildDomains`), the tables
//! that a representation declares (`DeclaredTrees`). `laws` says that sizes and children are right under each env.
#![tactic(auto)]

pub mod laws;
