//! What is given in domains, and comprehensions in order where order counts, stay by the rules of openings.
#![tactic(auto)]

pub mod laws;
