//! What is given in conditions stays along chains of all rules but those of counted sources, from judged trees of a specification to
//! refined trees.
#![tactic(auto)]

pub mod laws;
