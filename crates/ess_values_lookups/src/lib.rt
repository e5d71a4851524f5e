//! Values whose items rise, and what is looked for in them by halves.
#![tactic(auto)]

mod halves;
mod items;
mod rising;

pub use halves::{holds_rising, value_at_rising};
pub use items::member_rising;
pub use rising::is_rising;
