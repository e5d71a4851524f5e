//! What the conditions of judged terms say of their values.
#![tactic(auto)]

pub mod laws;
