//! Expressions and domains of models as they are evaluated: declared tables are found by number, and what is of the wrong
//! kind is replaced by what has nothing, once for all evaluations.
#![tactic(auto)]

mod cells;
mod declared;
mod domains;
mod expressions;
mod generators;
mod kinding;
mod kinds;
mod lists;
mod nodes;
mod operators;
mod scope;
pub mod tree;

pub use declared::{Declared, Shape};
pub use kinding::{kinded, kinded_dom};
pub use nodes::KindedEx;
pub use tree::{KDom, KEx, KGen, KList, KRange, Kind};
