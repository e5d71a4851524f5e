//! Sizes of the domains of nodes, as terms over the domain's own numbers: how many members a domain has at most, the slots of a set or
//! multiset, how often a member of a multiset occurs; whether a term is a member of an atom, and the dummy of one.
#![tactic(auto)]

mod atoms;
mod attributes;
mod members;
mod numerals;
mod sizes;
mod terms;

pub use atoms::is_bounded;
pub use attributes::{greatest_size, has_key, number_of, same_key};
pub use members::{dummy, inside};
pub use sizes::{bound, occurrences, slots};
pub use terms::{listed, next};
