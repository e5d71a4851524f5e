//! The headers of models, as definitions: the comments under a model's language line in which it carries its specification
//! and the representations of its givens and finds, so that cells can be translated back.
//!
//! `ess_grammar` says which lines are a header, however deeply they are nested. `specs/Headers` says with which header a text
//! begins for a reader, which takes lines within its limits alone, and which headers are ones of this tool; `specs/WrittenLines`
//! says as which lines a header is written. What the definitions are worth is said by `laws`: a text begins with at most one
//! header, a model's text begins with the model's where its lines are within the limits, and the lines that are written are
//! the header, which a reader finds in them where none is nested too deeply.
#![tactic(auto)]

pub mod laws;
