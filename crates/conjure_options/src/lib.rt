//! The representations of a specification's givens and finds: those that the option `--use-repr` names, and the default where it
//! names none.
#![tactic(auto)]

mod chosen;
mod filling;
mod items;
mod options;
mod pieces;
mod trees;

pub use chosen::reprs_of;
pub use ess_parse::NamedReprs;
pub use filling::filled;
pub use options::{OptionsNo, options_of};
