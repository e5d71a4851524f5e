//! Rules of comparisons: `!=`, the signs of inclusion, and `=` between compound values. Each call answers what the rule of the
//! definitions makes of the root of a tree, or nothing where the rule doesn't fire.
#![tactic(auto)]

mod components;
mod equality;
mod fields;
mod inclusion;
mod kinds;
mod matrices;
mod parted;

pub use components::equal_components;
pub use equality::{equal_members, equal_often, equal_pairs, equal_parts};
pub use fields::equal_fields;
pub use inclusion::{
    included_members, included_often, included_strictly, included_turned, unequal,
};
pub use matrices::{equal_matrices, equal_to_nothing};
pub use parted::compares_compound;
