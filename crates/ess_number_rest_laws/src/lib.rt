//! Rules of sources whose items are counted rest at an operator none of whose operands is a list over what is picked.
#![tactic(auto)]

pub mod laws;
