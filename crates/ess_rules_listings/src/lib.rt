//! What container terms offer as listings, over nodes, and the folds over what their sources offer. Each call is the rule of the
//! definitions that it computes; it answers nothing where the rule doesn't fire.
#![tactic(auto)]

mod building;
mod kinds;
mod made;
mod made_words;
mod ranges;
mod rows;
mod sources;
mod terms;

pub use made::made_listing;
pub use ranges::range_as_set;
pub use sources::{extremes_listed, offered, source_listed, source_listed_once};
pub use terms::listing;
