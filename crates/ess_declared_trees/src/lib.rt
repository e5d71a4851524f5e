//! The tables that a representation declares, over nodes: their names, the domains of their axes, and the domains of their cells, whose
//! bounds are expressions.
#![tactic(auto)]

mod atoms;
mod axes;
mod children;
mod domains;
mod names;
mod own_tables;
pub mod tables;
mod trees;

pub use tables::Declared;
pub use trees::trees_below;
