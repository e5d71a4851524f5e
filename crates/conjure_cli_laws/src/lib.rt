//! Why the text that is written is a model of the specification that was read.
//!
//! `specs` says which texts are read and what is written for them, and the specification and the model that these stand for.
//! `laws` says that the model stands for the specification. Everything else is lemmas.
#![tactic(auto)]

pub mod laws;
