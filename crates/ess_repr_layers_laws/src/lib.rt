//! All layers of a representation, one by one: what a kind has over a domain, the tables of a member made of those of its inner
//! values, and the value that tables stand for made of those of the slots in use.
//!
//! `specs` has the pure functions that code computes. The lemmas of `proofs` say that the recursion over layers answers the
//! canonical tables, and the value that tables stand for.
#![tactic(auto)]
