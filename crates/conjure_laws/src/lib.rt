//! Why the model that is written is one of its specification.
//!
//! `specs` says what each layer delivers, as premises of one statement, one plan, one find or one constraint, and a class of
//! specifications with their models. `laws` says that a model stands for its specification where the layers deliver that, and
//! that the models of the class do. Everything else is lemmas.
#![tactic(auto)]

pub mod laws;
