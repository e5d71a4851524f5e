//! The verdict on a specification: its first statement that fails a judgement, or its declared names with their types, and its
//! statements with lettings put in and resolved.
#![tactic(auto)]

mod checking;
mod declared;
mod entering;
mod findings;
mod fresh;
mod progress;
mod refusal;
mod value_names;
mod verdicts;

pub use checking::{Typed, check};
pub use declared::NamedTy;
pub use refusal::TypeNo;
