//! Sources told apart anew, and what stands behind them.
#![tactic(auto)]

pub mod laws;
