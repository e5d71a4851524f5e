//! Total expressions: undefined terms done away with by conditions alone, and the laws of it.
//!
//! `specs` says what the conditions of a term are and how a Boolean stands behind them. `laws` says that it means the same.
//! Everything else is lemmas.
#![tactic(auto)]

pub mod laws;
