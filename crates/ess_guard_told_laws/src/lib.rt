//! Where guarded judged expressions are total but for tests.
#![tactic(auto)]

pub mod laws;
