//! The words of the command line.
#![tactic(auto)]

mod command;
mod no;
mod numbers;
mod parsers;
mod words;

pub use command::{Command, Options};
pub use no::WordsNo;
pub use words::words_of;
