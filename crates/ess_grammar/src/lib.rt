//! Texts of specifications, models and values, as definitions: tokens with their places, the load
//! of a text, words outside the subset, and the grammar as rules over tokens, with the trees that
//! texts have.
//!
//! The definitions stand in `specs/`. They are written from the language's description and share
//! nothing with the code that reads texts. `Kind` is what that code calls a token; `specs/Kinds`
//! says which token of the definitions each kind is.
#![tactic(auto)]

mod kind;
mod text;

pub use kind::Kind;
