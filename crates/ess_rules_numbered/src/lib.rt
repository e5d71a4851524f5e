//! Rules of comprehensions over sources whose items are counted: an item of such a list by its number, equality of lists and signs between
//! them by the numbers of their items, a list that is a side of such a pair, and lists in the place of picked matrices that aren't numbered
//! from 1.
#![tactic(auto)]

mod as_lists;
mod behind;
mod comparing;
mod equality;
mod items;
mod listed;
mod lists;
mod mentions;
mod most;
mod order;
mod picks;
mod sources;
mod sums;
mod there;

pub use equality::equal_by_number;
pub use items::{within_a_pair, within_an_item};
pub use listed::lists_picked;
pub use order::order_by_number;
