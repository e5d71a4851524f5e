//! Children, axes and sizes of representations of domains whose numbers are known. Nothing is checked before: who asks for axes has
//! counted the cells, since an axis may be long.
#![tactic(auto)]

mod axes;
mod bounds;
mod child_domains;
mod conversions;
mod copies;
mod fronts;
mod own_tables;
mod representations;
mod sizes;

pub use axes::{axes_of_each, axis};
pub use bounds::bound;
pub use child_domains::children;
pub use copies::copy;
pub use fronts::front_axes;
pub use own_tables::own_axes;
pub use representations::axes_of;
pub use sizes::{greatest_size, mset_slots, occurrences, set_slots};
