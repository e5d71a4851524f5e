//! The tokens of a text, and its load.
//!
//! `Lexer` gives the tokens of a text one after another, each with its kind, its slice of the text
//! and its place; `load` says where a text is nested too deeply, and `first_outside` where a word
//! stands that this tool doesn't support. What a token is, and where, is defined in `ess_grammar`.
//! No call takes memory.
#![tactic(auto)]

mod bytes;
mod end;
mod lexer;
mod scan;
mod stack;
mod tables;
mod texts;

pub use end::end_place;
pub use ess_grammar::Kind;
pub use lexer::{LexNo, Lexer, Token};
pub use texts::{first_outside, load};
