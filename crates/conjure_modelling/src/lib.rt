//! From the text of a specification, and the list of `--use-repr` where there is one, to the text of its model, or to the reason why
//! there is none.
#![tactic(auto)]

mod modelling;
mod refusal;
mod written;

pub use modelling::model_of;
pub use refusal::ModelNo;
