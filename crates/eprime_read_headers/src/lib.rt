//! The lines of the header of a model's text: the comments directly under its language line.
//!
//! The language line ends behind the fifth token of the text. `specs/FrontTokens` says what is asked of the text: the lexer
//! may refuse none of these five; what it says of the tokens behind them doesn't matter.
#![tactic(auto)]

mod language_end;
mod lines;

pub use lines::header_lines;
