//! Parts of the judging of texts of cells, each of a value or a name by itself.
//!
//! - `names`: declared names and names of lettings, each found by search in an ordered index;
//! - `indices`: whether a list can stand over an axis; an index domain is compared with the axis range by range, and is never listed;
//! - `numbers`: the item that a value is.
#![tactic(auto)]

mod indices;
mod names;
mod numbers;
mod sweeping;

pub use indices::is_over;
pub use names::{first_extra, first_missing, names_of, places_of, value_of};
pub use numbers::item_of;
