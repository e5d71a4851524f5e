//! The readers of texts, and beside them the printers of statements and representations.
//!
//! Each reader answers the one tree that the rules of `ess_grammar` derive for the tokens of a text, or the first reason
//! why it doesn't. Each goes over the text once for each reason that is no matter of the grammar, and once more with a
//! machine that takes token by token; no list of tokens is kept.
#![tactic(auto)]

mod domains;
mod first;
mod lettings;
mod parsing;
mod refusal;
mod representations;
mod specifications;

pub use domains::read_dom;
pub use ess_print::{print_repr, print_stm};
pub use first::pass_first;
pub use lettings::{Letting, Lettings, read_lettings};
pub use refusal::ReadNo;
pub use representations::{NamedReprs, read_named_reprs, read_repr};
pub use specifications::read_spec;
