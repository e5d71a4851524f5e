//! Trees over tables, over nodes: what stands in the place of names is put in. It is kept in maps by name.
#![tactic(auto)]

mod showing;
mod shown_domains;
mod shows;

pub use showing::shown;
pub use shown_domains::shown_dom;
pub use shows::{DomNames, NodeNames, Shows};
