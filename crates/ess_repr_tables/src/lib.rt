//! Tables of whole numbers under the axes of one layer: stacked of the tables of its slots, cut apart into them, and put in order.
#![tactic(auto)]

mod cutting;
mod numbers;
mod ordering;
mod stacking;
mod volumes;

pub use cutting::{parts_at, slots_at};
pub use numbers::{SlotsInUse, used_numbers};
pub use ordering::{in_order, order_tables};
pub use stacking::{add_zeros, fitted, stacked};
pub use volumes::volume;
