//! Whether tables satisfy a model in Essence Prime, or what they fail first.
#![tactic(auto)]

mod axes;
mod domains;
mod fitting;
mod names;
mod ruling;
mod satisfying;

pub use eprime_eval::EvalNo;
pub use satisfying::{PVerdict, satisfies};
