//! Rules keep marks: each node that they make has a type and says that it is Boolean where its type is.
#![tactic(auto)]

pub mod laws;
