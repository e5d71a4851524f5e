//! What stands over tables in the place of names, entered part by part: domains and views of givens and finds, positions of values,
//! and numbers of values of types.
#![tactic(auto)]

mod entering;
mod positions;

pub use entering::{
    cell_node, enter_domain, enter_number, enter_size, enter_values, enter_views, nothing_shown,
};
