//! The steps of the parser's machine in expressions: where an operand is wanted, behind one, inside lists, quantifiers and
//! comprehensions, after the expressions of the grammar of Essence ('Essence: A constraint language for specifying combinatorial
//! problems', Constraints 13, 2008).
//!
//! Each function is the step of the definition in `ess_parse_laws` that its clause names (`specs/Operands`, `specs/AfterOperands`,
//! `specs/Items`). It answers the state behind the token, or None where no text goes on so; `NoMemory` may come at each that puts
//! something into a row or a box.
#![tactic(auto)]

pub mod after_operand;
mod calls;
mod close_curly;
mod close_round;
mod close_square;
mod commas;
mod dot;
mod items;
mod listing;
mod nothing;
pub mod operand;
mod separators;
pub mod words;
