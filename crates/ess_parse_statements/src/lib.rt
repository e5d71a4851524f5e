//! The steps of the parser's machine in the parts of statements that are no expression and no domain, and in the language
//! line: after the statements of the grammar of Essence ('Essence: A constraint language for specifying combinatorial
//! problems', Constraints 13, 2008).
//!
//! Each function is the step of the definition in `ess_parse_laws` that its clause names (`specs/StatementSteps`). It answers
//! the state behind the token, or None where no text goes on so; `NoMemory` may come at each that puts something into a row.
#![tactic(auto)]

pub mod beginnings;
pub mod language;
pub mod lettings;
pub mod names;
