//! The headers of models: the lines of comments in which a model carries its specification and the representations of its
//! givens and finds, read and written.
#![tactic(auto)]

mod headers;
mod represented;
mod writing;

pub use ess_parse::NamedReprs;
pub use headers::{HeadNo, Header, read_header};
pub use represented::are_reprs_of;
pub use writing::write_header;
