//! The machine of texts of cells: the parameters and solutions of Essence Prime, read token by token.
//!
//! The rules of `ess_grammar` say which values of names a list of tokens is. A machine reads tokens once, from left to
//! right: `specs/CellMachine` is one step a token and an answer at the end. What the machine does is said by its laws, which
//! `laws` states as the contracts of functions that do nothing. So a reader that steps as the machine does reads exactly
//! the texts of cells, and the token at which it stops is the place of its error.
#![tactic(auto)]

pub mod laws;
