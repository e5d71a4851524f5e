//! The tables of representations and of choice: which representations fit a domain, which one is chosen where none is named,
//! the domains of a representation's children, and the tables that it declares.
#![tactic(auto)]

mod atoms;
mod attributes;
mod cells;
mod choice;
mod conversions;
mod declaring;
mod doms;
mod fitting;
mod fitting_pairs;
mod fitting_sets;
mod fitting_tuples;
mod layer_axes;
mod layers;
mod naming;
mod numerals;
mod own_tables;
mod sizes;
mod terms;

pub use choice::choose;
pub use declaring::declare;
pub use fitting::fits;
pub use layers::children;
