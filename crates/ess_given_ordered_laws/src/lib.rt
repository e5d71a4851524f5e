//! What is given in domains, and comprehensions in order where order counts, stay where conditions are gathered and where items have an
//! order.
#![tactic(auto)]

pub mod laws;
