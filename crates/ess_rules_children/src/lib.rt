//! Views that stand for a view of a child: values that are kept as another value, and components of tuples and records. Each call is the
//! rule of the definitions that it computes; it answers nothing where the rule doesn't fire.
#![tactic(auto)]

mod asked;
mod components;
mod kept;
mod widths;

pub use asked::asked_of_child;
pub use components::component_view;
pub use kept::{child_listing, kept_as};
