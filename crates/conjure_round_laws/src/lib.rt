//! What comes back from a model that stands for its specification: the found tables that satisfy it stand for a solution, whose text is read
//! again as that solution and is valid.
#![tactic(auto)]

pub mod laws;
