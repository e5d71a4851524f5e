//! What the texts of files stand for under a specification: the verdict on a solution.
//!
//! Files are read one after another: `specification` reads the first, `parameter_of` the second, `verdict_of` the third, and
//! `validate` does all three.
#![tactic(auto)]

mod judging;
mod lookups;
mod parameters;
mod refusal;
mod side;
mod texts;
mod validating;
mod walk;

pub use judging::verdict_of;
pub use parameters::parameter_of;
pub use refusal::{TransNo, Which};
pub use texts::specification;
pub use validating::validate;
