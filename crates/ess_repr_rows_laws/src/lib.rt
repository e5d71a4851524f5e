//! One layer of a representation on rows of numbers: what stands in its tables item by item, down and up.
//!
//! `specs` has the pure functions that code computes. The lemmas of `proofs` say that they are the layers of cells.
#![tactic(auto)]
