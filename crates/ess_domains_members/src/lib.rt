//! Membership in closed domains: canonical form, attributes, and the members of each part.
#![tactic(auto)]

mod atoms;
mod counting;
mod fields;
mod forms;
mod functions;
mod lists;
mod matrices;
mod member;
mod numbers;
mod pairs;
mod partitions;
mod parts;
mod relations;
mod repeats;
mod sets;

pub use atoms::{in_spans, is_item};
pub use functions::function_attributes_hold;
pub use lists::{arguments_rise, holds, rises, rises_weakly, same, same_list};
pub use matrices::leaves;
pub use member::is_member;
pub use partitions::partition_attributes_hold;
pub use parts::are_apart;
pub use relations::relation_attributes_hold;
pub use sets::{mset_attributes_hold, set_attributes_hold};
