//! The machine of models in Essence Prime: models read token by token.
//!
//! The rules of `ess_grammar` say which models a list of tokens is. A machine reads tokens once, from left to right:
//! `specs/ModelMachine` is one step a token and an answer at the end. Inside a declaration, the objective and the
//! constraints it goes as the machine of specifications does. Where such a part ends it has to be one of a model, with the
//! names that earlier lines declare as cells; so before each word that begins a part stands a whole model.
//!
//! What the machine does is said by its laws, which `laws` states as the contracts of functions that do nothing. So a
//! reader that steps as the machine does reads exactly the models, and the token at which it stops is the place of its
//! error.
#![tactic(auto)]

pub mod laws;
