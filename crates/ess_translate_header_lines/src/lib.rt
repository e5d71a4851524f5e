//! The lines of a model's header, read and written: a specification without constraints and objectives, and the
//! representations of names. Whether the specification is well typed, and whether the representations are of its givens and
//! finds, isn't asked here.
#![tactic(auto)]

mod language;
mod lines;
mod reading;
mod texts;
mod writing;

pub use ess_parse::NamedReprs;
pub use reading::HeaderLines;
pub use texts::read_header_lines;
pub use writing::write_header_lines;
