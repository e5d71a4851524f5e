//! Rules of comprehensions whose items have an order: their items by number, over what is picked, and their sources by indices or items.
#![tactic(auto)]

mod axes;
mod cases;
mod decided;
mod indexed;
mod items;
mod lookups;
mod names;
mod numbered;
mod over_items;
mod picked;
mod places;
mod scalars;
mod sources;
pub mod told;

pub use axes::{picked_axis, told_axis};
pub use indexed::{bound_behind, source_by_indices};
pub use items::{an_item, of_an_item};
pub use names::ItemNames;
pub use over_items::source_of_an_item;
pub use picked::is_untold;
pub use places::is_from_one;
pub use sources::{item_at, item_type};
