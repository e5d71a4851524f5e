//! Rules of sources at the first generator that isn't plain, and of what is picked out of terms. Each call is the rule of the definitions
//! that it computes; it answers nothing where the rule doesn't fire.
//!
//! The rules that read the kind of a view or what a term picks, at the root of a tree, in groups in the order in which they are tried.
//! What a group answers is what one of its rules makes of the root.
#![tactic(auto)]

mod decided;
mod list_rules;
mod measures;
mod offering;
mod ordering;
mod pick_rules;
mod picking;
mod several;
mod size_rules;
mod source_rules;
mod supplies;
mod test_rules;
mod truths;
mod view_rules;
mod words;

pub use list_rules::lists;
pub use ordering::kept_behind;
pub use pick_rules::picks;
pub use picking::{function_size, over_picked, picked_scalar, related};
pub use several::{counted_apart, least_of_several, set_of_several, set_of_term};
pub use size_rules::sizes;
pub use source_rules::sources;
pub use supplies::Taken;
pub use test_rules::tests;
pub use view_rules::views;
pub use words::{over_each_picked, over_one_opened};
