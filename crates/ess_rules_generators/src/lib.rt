//! Rules of generators, over nodes: each call is the rule of the definitions that it computes. It answers nothing where the rule doesn't
//! fire.
#![tactic(auto)]

mod components;
mod domains;
mod forms;
mod records;
mod splicing;

pub use components::name_over_tuple;
pub use domains::split;
pub use records::name_over_record;
pub use splicing::{before, put_in, splice};
