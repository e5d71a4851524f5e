//! The states of the parser's machine as data: frames, modes and states, with what they stand for in the definitions of
//! `ess_parse_laws`.
//!
//! A frame is a rule of the grammar that is read in part. Rows in frames stand in the order of the text, so that an item is
//! put behind them in constant time; the definitions keep the same lists in reverse. `specs/Views` says which frame, mode
//! and state of the definitions each of these types stands for.
//!
//! `stack` takes frames off and puts them on, and `reducing` closes the frames that end with an expression or a domain.
//! Then come the ends that the steps of statements, domains and expressions share (`statements`, `generators`, `ends`,
//! `domain_parts`, `records`), and the calls by which those steps let go what was read (`stops`): how frames and trees are let
//! go is proved here once, and a crate above that lets none go without such a call has no part in it.
#![tactic(auto)]

pub mod commas;
pub mod comprehensions;
pub mod domain_parts;
pub mod ends;
pub mod frames;
pub mod generators;
pub mod items;
pub mod kinds;
pub mod levels;
pub mod modes;
pub mod operands;
pub mod parts;
pub mod records;
pub mod reducing;
pub mod rows;
pub mod stack;
pub mod statements;
pub mod states;
pub mod stops;

pub use frames::{AtLeast, Declaring, Frame, Head, Inner, Listing, Literal, Owner, Sense};
pub use modes::{Mode, Opening};
pub use operands::{Listed, Operand};
pub use states::{Answer, State};
