//! The parser's machine: specifications, files of lettings, domains, expressions and representations, read token by token.
//!
//! The rules of `ess_grammar` say which trees a list of tokens is. A machine reads tokens once, from left to right, with a
//! stack of frames: `specs/Machine` is one step a token and an answer at the end, `specs/Lettings` is the same machine for
//! files of lettings, and `specs/RepresentationMachine` a small one for representations.
//!
//! The definitions of the machine say how it works. What it does is said by its laws, which `laws` states as the contracts
//! of functions that do nothing: what the rules derive the machine reads, what it reads they derive, and each list of tokens
//! is at most one tree. Where the machine stops, no text goes on that the rules derive. Before a word that begins a
//! statement stands a whole text.
//!
//! So a reader that steps as the machine does reads exactly the language, and the token at which it stops is the place of
//! its error.
#![tactic(auto)]

pub mod laws;
