//! All layers of a representation: the canonical tables of a member of a domain, and the value that tables stand for.
#![tactic(auto)]

mod components;
mod compounds;
mod down;
mod families;
mod kinds;
mod layers;
mod slots;
mod up;

pub use down::down_all;
pub use up::up_all;
