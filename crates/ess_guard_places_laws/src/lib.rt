//! Trees guarded with natural places are total but for plain operators there and for tests of indices.
#![tactic(auto)]

pub mod laws;
