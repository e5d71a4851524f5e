//! The rules of conditions that read cells: how such a condition leaves the generators of a fold, moves behind them, or becomes part
//! of a number.
#![tactic(auto)]

mod extremes;
mod leaving;
mod moving;
mod parted;

pub use extremes::{extreme_condition, opposite_of};
pub use leaving::condition_leaves;
pub use moving::condition_later;
pub use parted::{Parted, at_last_condition};
