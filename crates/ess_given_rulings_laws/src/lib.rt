//! What is given in conditions and domains stays along chains of all rules but those of counted sources.
#![tactic(auto)]

pub mod laws;
