//! Guarded trees are total but for tests of indices whose matrices don't tell their index domain by their form.
#![tactic(auto)]

pub mod laws;
