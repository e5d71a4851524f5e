use crate::drafts::Draft;
use crate::openings::Opening;
use ess_parse_machine::Parser;

/// A part of a model that is being read: a declaration, the objective, or the constraints.
#[derive(Drop)]
pub(crate) struct Part {
    /// The word that it begins with.
    pub(crate) opening: Opening,
    /// The model before it.
    pub(crate) draft: Draft,
    /// The parser behind its tokens up to here.
    pub(crate) parser: Parser,
}
