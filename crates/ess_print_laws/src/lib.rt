//! The printed texts of trees, as definitions: expressions, domains, statements and representations, for the whole grammar.
//!
//! A printed text is a list of pieces, so one list gives its bytes and its tokens (`specs/Pieces`). `specs/Expressions` and
//! `specs/Statements` say which pieces a tree has, and `specs/Brackets` where brackets stand.
//!
//! What the definitions are worth is said by `laws`: the text of a tree that some text has is derived by the grammar's rules
//! for exactly that tree. So a printer that writes these texts writes what is read again as the same tree. The text of a value
//! is that of its literal, where some text spells it (`specs/Spelled`).
#![tactic(auto)]

pub mod laws;
