//! The parser: reads expressions, domains, specifications and files of lettings token by token, as the machine of
//! `ess_parse_laws` does.
//!
//! `Parser` is the whole: its start states, a step a token, and the answer at the end. Its clauses say that each is the
//! start, the step and the answer of the definition (`specs/Machine` of `ess_parse_laws`), for the state of the machine that the
//! parser stands for (`specs/Parsers`).
#![tactic(auto)]

mod atoms;
mod finishing;
mod names;
pub mod parser;
mod steps;

pub use ess_parse_frames::Answer;
pub use parser::Parser;
