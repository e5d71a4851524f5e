//! The lines of headers of models of scalars and sets side by side are those headers, and specifications stay of their class with the
//! representations of all givens and finds as options.
#![tactic(auto)]

pub mod laws;
