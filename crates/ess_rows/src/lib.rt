//! Lists, boxes and texts that contracts see as their contents.
//!
//! A tree over `Row`, `Boxed` and `Text` is plain data in a contract: no clause names a pointer or
//! a capacity, so that two trees are equal exactly where they hold the same, and a copy equals
//! what it was copied from.
#![tactic(auto)]

mod boxed;
mod memory;
mod place;
mod row;
mod text;

pub use boxed::Boxed;
pub use memory::NoMemory;
pub use place::Place;
pub use row::Row;
pub use text::Text;
