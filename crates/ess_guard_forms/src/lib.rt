//! What the form of a tree tells of it: which terms are numbers, which are sure to lie in a domain, which index domain a matrix has,
//! under what is known of bound names. Conditions that the form tells needn't be asked.
#![tactic(auto)]

mod bounds;
mod index_domains;
mod known;
mod numbers;
mod operands;
mod places;
mod ranges;

pub use index_domains::{counted, index_dom, items_counted, one_up_to, plain_axis};
pub use known::{KnownName, bind_any, bind_over, copy_known};
pub use numbers::is_number;
pub use operands::pair_in;
pub use places::{compares, connects, counts, is_plain};
pub use ranges::{has_size, is_sure, one_range};
